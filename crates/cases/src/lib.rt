// The cases of opened unknowns: read off a way, and the judge's unknowns decided by them.
#![tactic(auto)]

pub mod cases;
pub mod decide;
