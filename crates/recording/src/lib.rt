// What a session tells its chooser: that an unknown is opened, and which conflicts were found.
#![tactic(auto)]

pub mod conflict;
pub mod opening;
