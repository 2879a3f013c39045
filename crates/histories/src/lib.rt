// The mathematics of a session: what each call does to its state, any list of calls, and what a search's answer is worth after it.
// The definitions are in specs/, and `laws` has the theorems that are proved of them.
#![tactic(auto)]

pub mod laws;
