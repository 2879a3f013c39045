use backtrack::Steps;
use rows::{ClauseStore, MOST_VARIABLES};

// The plain chooser. Its memory is reserved once, when it is made: two bytes for each entry, and for the search four bytes for
// each of the 4,096 variables that it can have, whether they are allotted or not.
#[derive(Drop)]
pub struct Plain {
    pub(crate) clauses: ClauseStore,
    // Working memory of the search.
    pub(crate) trail: Steps<MOST_VARIABLES>,
}
