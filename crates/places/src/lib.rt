// The table of unknowns by its places, as code has it: judging by places is judging by the paths that they name.
// The definitions are in specs/, and `laws` has the theorems that are proved of them.
#![tactic(auto)]

pub mod laws;
