// The trail of a search with learning: literals in the order in which they were put, each a decision or one that follows from
// the clauses and the literals before it. The variables' values are kept beside it.
#![tactic(auto)]

mod search;
mod step;
mod trail;

pub use search::Search;
pub use step::{Reason, Step, Value};
pub use trail::Trail;
