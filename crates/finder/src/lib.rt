// The mathematics of a session's table of unknowns: what ways of a chooser decide, what conflicts forbid, and what follows for
// assignments. The definitions are in specs/, and `laws` has the theorems that are proved of them.
#![tactic(auto)]

pub mod laws;
