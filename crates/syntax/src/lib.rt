// The language of problems: abstract syntax, typing, values and encoding in specs/; here the tables, faults
// and limits that the crates above share.
#![tactic(auto)]

pub mod faults;
pub mod limits;
pub mod tables;
