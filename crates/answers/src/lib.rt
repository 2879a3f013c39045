// What a search answers.
#![tactic(auto)]

pub mod answer;
pub mod words;
