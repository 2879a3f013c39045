// The model of a way as bytes, for whoever wants to replay it.
#![tactic(auto)]

pub mod laws;
pub mod writing;
