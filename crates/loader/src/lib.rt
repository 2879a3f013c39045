// Searches as a loader asks for them: each takes the bytes of a problem, does the whole work, and keeps nothing.
#![tactic(auto)]

mod deepening;
pub mod request;
pub mod searching;
mod under_goals;
