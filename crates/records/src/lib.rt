// Reads the records of a problem one after another.
#![tactic(auto)]

pub mod kinds;
pub mod next;
mod parts;
pub mod reader;
