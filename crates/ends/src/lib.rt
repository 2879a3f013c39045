// Where terms end in a problem's bytes, and what holds of typed terms and the bytes that write them.
#![tactic(auto)]

pub mod ends;
pub mod laws;
