// The learning chooser: it keeps what it learns from clashes, and the values that variables last had, from one question to the
// next.
#![tactic(auto)]

mod learning;

pub use learning::Learning;
