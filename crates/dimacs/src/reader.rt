ghost use Rattle.std.specs.Prelude.{◌≤◌, vec_len, vec_capacity};
ghost use Rattle.rows.specs.declared.store.TheConstants.{MOST_ENTRIES};

use crate::step::State;

// What was read so far, in memory that is reserved at the start.
#[derive(Drop)]
pub(crate) struct Reader {
    pub(crate) state: State,
    // The literals of the clause that is not ended yet, and the clauses before it.
    pub(crate) clause: Vec<u16>,
    pub(crate) row: Vec<u16>,
    ghost short: { vec_len clause ≤ MOST_ENTRIES },
    ghost reserved: { MOST_ENTRIES ≤ vec_capacity clause },
    ghost fits: { vec_len row ≤ MOST_ENTRIES },
    ghost held: { MOST_ENTRIES ≤ vec_capacity row },
}
