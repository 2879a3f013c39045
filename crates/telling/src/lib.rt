// Answers and models as text, written into memory that the caller lends.
#![tactic(auto)]

pub mod faults;
pub mod line;
mod page;
pub mod show;
