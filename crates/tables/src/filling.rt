// Reads a problem's records into tables.
ghost use Rattle.std.specs.Prelude.{◌≡◌, ◌≤◌, length, Err, MatchResult};
ghost use Rattle.records.specs.Raw.{Raw};
ghost use Rattle.records.specs.Reading.{records};
ghost use Rattle.tables.specs.Tabled.{Tabled};
ghost use Rattle.tables.specs.Exact.{ReadingExact};

use crate::sections::{BOOL, callable, datatype, fill, goal, unknown};
use records::reader::Reader;
use syntax::faults::{Fault, Reason};
use syntax::limits::{MOST_BYTES, MOST_FUNCTIONS, MOST_GOALS, MOST_TYPES, MOST_UNKNOWNS};
use syntax::tables::{Callable, Datatype, Span};

// Room for all that a problem may declare; how much of each table is filled is in `Counts`.
// Kept as it is: arrays with counts beside them, since they are a constant of blank values, which a vector of fixed room (`arrayvec`)
// cannot be.
#[derive(Clone, Copy)]
pub struct WorkTables {
    pub types: [Datatype; MOST_TYPES],
    pub functions: [Callable; MOST_FUNCTIONS],
    pub unknowns: [u8; MOST_UNKNOWNS],
    pub goals: [Span; MOST_GOALS],
}

impl WorkTables {
    pub const EMPTY: WorkTables = WorkTables {
        types: [Datatype::EMPTY; MOST_TYPES],
        functions: [Callable::EMPTY; MOST_FUNCTIONS],
        unknowns: [0; MOST_UNKNOWNS],
        goals: [Span::EMPTY; MOST_GOALS],
    };
}

// How many types (Bool among them), functions, unknowns and goals there are, and where the unknown records start.
#[derive(Clone, Copy)]
pub struct Counts {
    pub types: usize,
    pub functions: usize,
    pub unknowns: usize,
    pub goals: usize,
    pub start: usize,
}

// Fills the tables with what the records hold. After a refusal nothing is promised of the tables.
pub fn read_records(
    bytes: &[u8],
    types: &mut [Datatype],
    functions: &mut [Callable],
    unknowns: &mut [u8],
    goals: &mut [Span],
) -> Result<Counts, Fault>
    requires types { 32 ≤ length types.old }
    requires functions { 64 ≤ length functions.old }
    requires unknowns { 16 ≤ length unknowns.old }
    requires goals { 32 ≤ length goals.old }
    ensures reads { MatchResult result (λ n. ((raw : Raw) × Tabled bytes.now raw types.new functions.new unknowns.new goals.new n)) (λ e. records bytes.now ≡ Err e) }
    ensures exact { ReadingExact }
{
    if bytes.len() > MOST_BYTES {
        return Err(Reason::TooLong.at(MOST_BYTES));
    }
    let mut reader = Reader::new(bytes);
    types[0] = BOOL;
    let type_count = fill(&mut reader, &mut types[1..], MOST_TYPES - 1, datatype)?;
    let function_count = fill(&mut reader, functions, MOST_FUNCTIONS, callable)?;
    let start = reader.place();
    let unknown_count = fill(&mut reader, unknowns, MOST_UNKNOWNS, unknown)?;
    let goal_count = fill(&mut reader, goals, MOST_GOALS, goal)?;
    reader.end()?;
    Ok(Counts {
        types: 1 + type_count,
        functions: function_count,
        unknowns: unknown_count,
        goals: goal_count,
        start,
    })
}
