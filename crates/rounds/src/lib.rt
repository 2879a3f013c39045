// The rounds of a search: asking the chooser, judging what it picks, and learning from it.
#![tactic(auto)]

mod asking;
mod opening;
mod run;
pub mod search;
mod settling;
mod turn;
