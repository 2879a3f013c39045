// What a clash teaches: a clause that every allowed way meets, drawn from the clauses that led to it, and the place of the
// trail to jump back to. Each step is checked as it is made; where a check fails, the clause of the decisions is drawn.
#![tactic(auto)]

mod analyzer;

pub use analyzer::Analyzer;
