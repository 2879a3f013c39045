// A session: which goals are in force, what is known of the unknowns, and what the last search left.
#![tactic(auto)]

mod beginning;
pub mod faults;
mod force;
pub mod limits;
mod modelling;
mod searching;
mod seen;
pub mod session;
pub mod slip;
