// The judge: heads of held terms and comparings, by the rules of judging and with their steps.
#![tactic(auto)]

pub mod answers;
pub mod cycle;
pub mod decides;
pub mod goals;
pub mod held_terms;
pub mod judge;
pub mod left;
pub mod outcomes;
pub mod verdicts;
