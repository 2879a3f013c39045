// What a round finds when it judges the goals in force.
#![tactic(auto)]

pub mod find;
