// What a session refuses at begin, put and give_back, at the edge of each refusal and with the accepted call beside it, on either
// kind of chooser; and what the tests of its other calls share.
#![tactic(auto)]

pub mod bare;
pub mod problems;
#[cfg(test)]
mod tests;
