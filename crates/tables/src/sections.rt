// The records of each kind, read into a table.
ghost use Rattle.std.specs.Prelude.{◌≡◌, ℕ, ◌≤◌, length, Err, MatchResult};
ghost use Rattle.syntax.specs.Tables.{cases_in, profile_in};
ghost use Rattle.records.specs.Raw.{Few};
ghost use Rattle.records.specs.Reading.{many};
ghost use Rattle.records.specs.Next.{Lists};
ghost use Rattle.records.specs.Readers.{ahead_of};
ghost use Rattle.records.specs.Handed.{cases_held, function_held};
ghost use Rattle.tables.specs.Sections.{Section, Filled, MadeOf, Entered};

use records::kinds::{FunctionRecord, GoalRecord, TypeRecord, UnknownRecord};
use records::next::Record;
use records::reader::Reader;
use syntax::faults::Fault;
use syntax::limits::MOST_CONSTRUCTORS;
use syntax::tables::{Callable, Datatype, Span, TypeList};

// False and true take no arguments, and Bool has no record.
pub(crate) const BOOL: Datatype = Datatype {
    at: 0,
    count: 2,
    constructors: [TypeList::EMPTY; MOST_CONSTRUCTORS],
};

pub(crate) fn datatype(item: TypeRecord) -> Datatype
    requires few { item.count ≤ 16 }
    requires lists { Lists item.count item.constructors.now }
    ensures cases { cases_in result ≡ cases_held item.entry }
    ensures marked { result.at ≡ item.entry.at }
{
    let mut constructors = [TypeList::EMPTY; MOST_CONSTRUCTORS];
    let mut rest = item.constructors;
    for list in &mut constructors[..usize::from(item.count)] {
        let (types, others) = rest[1..].split_at(usize::from(rest[0]));
        *list = TypeList::new(types);
        rest = others;
    }
    Datatype {
        at: item.at,
        count: item.count,
        constructors,
    }
}

pub(crate) fn callable(item: FunctionRecord) -> Callable
    requires { Few item.params.now }
    ensures profile { profile_in result ≡ (function_held item.entry).profile }
    ensures marked { result.at ≡ item.entry.at }
    ensures start { result.body.start ≡ item.entry.start }
    ensures long { result.body.len ≡ length item.entry.body.now }
{
    let body = Span {
        start: item.start,
        len: item.body.len(),
    };
    Callable {
        at: item.at,
        params: TypeList::new(item.params),
        result: item.result,
        body,
    }
}

pub(crate) fn unknown(item: UnknownRecord) -> u8
    ensures { result ≡ item.ty }
{
    item.ty
}

pub(crate) fn goal(item: GoalRecord) -> Span
    ensures start { result.start ≡ item.entry.start }
    ensures long { result.len ≡ length item.entry.term.now }
{
    Span {
        start: item.start,
        len: item.term.len(),
    }
}

// Fills a table from the front with the records of one kind, of which there may be so many; the table has room for them.
// How many there are.
// Kept as it is: a count beside the table, which is lent memory; the reader says how long the loop goes on.
pub(crate) fn fill<'a, R: Record<'a>, T: Drop, F: Fn(R) -> T>(
    reader: &mut Reader<'a>,
    table: &mut [T],
    most: usize,
    entry: F,
) -> Result<usize, Fault>
    requires room { most ≤ length table.old }
    requires makes { (m : ℕ) (x : R) → R.IsAt m x → F.pre entry x }
    ensures { MatchResult result (λ n. Filled (Section R.reading R.writing R.high R.low most reader.old reader.new) (Entered (MadeOf R.IsAt R.meaning (F.post entry)) R.writing reader.old.at table.new n)) (λ e. many R.reading R.high R.low most (ahead_of reader.old) reader.old.at ≡ Err e) }
{
    let mut n = 0;
    while let Some(item) = reader.next::<R>(most - n)? {
        table[n] = entry(item);
        n += 1;
    }
    Ok(n)
}
