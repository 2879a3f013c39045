// Model bytes: a partial value for each unknown of a problem, and the unknowns that they decide.
#![tactic(auto)]

pub mod deciding;
pub mod declares;
pub mod laws;
pub mod model;
pub mod value_reading;
