// What a session refuses at model, and the telling of answers and models, at the edge of each refusal and with the accepted call
// beside it; the calls of a session on either kind of chooser.
#![tactic(auto)]

#[cfg(test)]
mod telling_tests;
#[cfg(test)]
mod tests;
