// A problem: bytes that the check accepts, with tables from which every question about them is answered at once.
#![tactic(auto)]

pub mod problem;
pub mod queries;
pub mod take;
pub mod view;
