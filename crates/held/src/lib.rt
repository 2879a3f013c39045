// What judging works with: explanations, which are sets of unknowns, and held terms in memory that is lent.
#![tactic(auto)]

pub mod explanation;
pub mod links;
pub mod memory;
pub mod places;
