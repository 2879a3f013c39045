// The typed check of a term over bytes: one byte at a time, with what is still to be read on a stack of tasks.
#![tactic(auto)]

pub mod check;
mod context;
pub mod lent_stack;
pub mod tasks;
