// Unit propagation by two watched literals. Each clause of two literals or more has two watches, each in a list of those that
// watch its literal. Of the lists nothing is claimed: what is put on the trail is shown by the clause itself.
#![tactic(auto)]

mod visit;
mod watches;

pub use watches::Watches;
