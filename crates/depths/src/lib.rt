// Depths of types and constructors: the theorem about the computed least depths, the laws that a search rests on, and the tables.
#![tactic(auto)]

pub mod laws;
pub mod least;
pub mod needs;
