// The working memory of an examination.
use syntax::limits::{MOST_BYTES, MOST_TYPES};
use tables::filling::WorkTables;

// A byte adds at most one task, and a task stands before the first.
pub const MOST_TASKS: usize = MOST_BYTES + 1;

// The tables, and each type's least depth.
#[derive(Drop)]
pub struct Workspace {
    pub tables: WorkTables,
    pub least: [u8; MOST_TYPES],
}

impl Workspace {
    pub const EMPTY: Workspace = Workspace {
        tables: WorkTables::EMPTY,
        least: [0; MOST_TYPES],
    };
}
