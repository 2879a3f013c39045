// A search with learning, in steps: propagate and choose, learn from a clash and jump back, begin anew. What is learned follows
// from the clauses that were added alone, so that it serves the next search too.
#![tactic(auto)]

mod intake;
mod learn;
mod solver;

pub use solver::Solver;
