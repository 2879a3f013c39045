// Judging held terms: the definition in specs/, its theory in proofs/, and in `laws` the theorems that are proved of it.
#![tactic(auto)]

pub mod laws;
