// The table of unknowns that a session keeps: what is known of each, which are opened, and which case a way gives them.
#![tactic(auto)]

pub mod opening;
pub mod table;
