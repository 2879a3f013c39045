// Each call of a loader beside the library's own answer, and each refusal beside a call that is accepted.
#![tactic(auto)]

#[cfg(test)]
mod library;
#[cfg(test)]
mod memory;
#[cfg(test)]
mod problems;
#[cfg(test)]
mod refusal_tests;
#[cfg(test)]
mod searching_tests;
#[cfg(test)]
mod telling_tests;
