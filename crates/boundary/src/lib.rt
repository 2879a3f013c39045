// What crosses the boundary to C, and the calls of a loader that search nothing: each takes the bytes of a problem, does the whole
// work, and keeps nothing.
#![tactic(auto)]

pub mod answering;
pub mod faults;
pub mod loading;
pub mod replaying;
pub mod status;
pub mod text;
