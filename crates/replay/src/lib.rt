// Replaying a model: every goal is judged under the values that its bytes write.
#![tactic(auto)]

pub mod faults;
pub mod replay;
