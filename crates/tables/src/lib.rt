// Reads the records of a problem into tables.
#![tactic(auto)]

pub mod filling;
mod sections;
