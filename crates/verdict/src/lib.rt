// The verdict on bytes: are they a problem, and if not, what is the first fault?
#![tactic(auto)]

pub mod check;
pub mod checked_terms;
pub mod examine;
pub mod types;
pub mod workspace;
