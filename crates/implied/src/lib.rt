// Clauses that every allowed way meets, and literals that every allowed way makes false. A way is allowed when it meets each
// clause of the row.
#![tactic(auto)]

mod facts;
mod pool;

pub use facts::Facts;
pub use pool::{Pool, Room};
