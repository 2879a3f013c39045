// The reading of a term, byte by byte, as a definition, with what it says of typed terms.
#![tactic(auto)]

pub mod laws;
pub mod parts;
