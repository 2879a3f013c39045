// The kinds of records, in the format's order. They borrow the bytes, and not the reader.
ghost use Rattle.std.specs.Prelude.{◌≡◌, ℕ, List};
ghost use Rattle.syntax.specs.Problems.{encode_type, encode_unknown};
ghost use Rattle.records.specs.Raw.{RawFunction, write_function, write_goal};
ghost use Rattle.records.specs.Reading.{type_of, function_of, byte_of, part_of};
ghost use Rattle.records.specs.Handed.{cases_held, function_held, TypeHeld, FunctionHeld, GoalHeld};

use crate::next::{Mark, Record};
use crate::reader::Reader;
use syntax::faults::Fault;
use syntax::limits::MOST_CONSTRUCTORS;

// A type: the place of its mark, how many constructors it has, and their lists of types, each led by its length.
// Kept as it is: a count beside the bytes, since the lists in them differ in length.
#[derive(Clone, Copy)]
pub struct TypeRecord<'a> {
    pub at: usize,
    pub count: u8,
    pub constructors: &'a [u8],
}

// A function: the place of its mark, its parameters' types, its result's type, and its body with the body's place.
#[derive(Clone, Copy)]
pub struct FunctionRecord<'a> {
    pub at: usize,
    pub params: &'a [u8],
    pub result: u8,
    pub start: usize,
    pub body: &'a [u8],
}

// An unknown: the place of its mark, and its type.
#[derive(Clone, Copy)]
pub struct UnknownRecord {
    pub at: usize,
    pub ty: u8,
}

// A goal: the place of its mark, and its term with the term's place.
#[derive(Clone, Copy)]
pub struct GoalRecord<'a> {
    pub at: usize,
    pub start: usize,
    pub term: &'a [u8],
}

// Kept as it is: a function for each kind's mark, which says its bytes. Two constants of the trait, and functions without clauses, were
// tried: where a kind borrows, as three of the four do, the check does not yet give either of them the clauses of its trait.
impl<'a> Record<'a> for TypeRecord<'a> {
    ghost high = { 0x44 };

    ghost low = { 0x54 };

    fn mark() -> Mark
        ensures high { result.high ≡ 0x44 }
        ensures low { result.low ≡ 0x54 }
    {
        Mark {
            high: b'D',
            low: b'T',
        }
    }

    ghost Meaning = { List (List ℕ) };

    ghost meaning = { cases_held };

    ghost reading = { type_of };

    ghost writing = { encode_type };

    ghost IsAt = { TypeHeld };

    fn read(reader: &mut Reader<'a>, mark: usize) -> Result<TypeRecord<'a>, Fault> {
        let mut ahead = *reader;
        let count = ahead.count(mark, 1, MOST_CONSTRUCTORS as u8)?;
        let constructors = ahead.lists(mark, count)?;
        *reader = ahead;
        Ok(TypeRecord {
            at: mark,
            count,
            constructors,
        })
    }
}

impl<'a> Record<'a> for FunctionRecord<'a> {
    ghost high = { 0x46 };

    ghost low = { 0x4E };

    fn mark() -> Mark
        ensures high { result.high ≡ 0x46 }
        ensures low { result.low ≡ 0x4E }
    {
        Mark {
            high: b'F',
            low: b'N',
        }
    }

    ghost Meaning = { RawFunction };

    ghost meaning = { function_held };

    ghost reading = { function_of };

    ghost writing = { write_function };

    ghost IsAt = { FunctionHeld };

    fn read(reader: &mut Reader<'a>, mark: usize) -> Result<FunctionRecord<'a>, Fault> {
        let mut ahead = *reader;
        let params = ahead.list(mark)?;
        let result = ahead.byte(mark)?;
        let body = ahead.part(mark)?;
        let start = ahead.at - body.len();
        *reader = ahead;
        Ok(FunctionRecord {
            at: mark,
            params,
            result,
            start,
            body,
        })
    }
}

impl<'a> Record<'a> for UnknownRecord {
    ghost high = { 0x55 };

    ghost low = { 0x4B };

    fn mark() -> Mark
        ensures high { result.high ≡ 0x55 }
        ensures low { result.low ≡ 0x4B }
    {
        Mark {
            high: b'U',
            low: b'K',
        }
    }

    ghost Meaning = { ℕ };

    ghost meaning = { λ x. x.ty };

    ghost reading = { byte_of };

    ghost writing = { encode_unknown };

    ghost IsAt = { λ m x. x.at ≡ m };

    fn read(reader: &mut Reader<'a>, mark: usize) -> Result<UnknownRecord, Fault> {
        let ty = reader.byte(mark)?;
        Ok(UnknownRecord { at: mark, ty })
    }
}

impl<'a> Record<'a> for GoalRecord<'a> {
    ghost high = { 0x47 };

    ghost low = { 0x4C };

    fn mark() -> Mark
        ensures high { result.high ≡ 0x47 }
        ensures low { result.low ≡ 0x4C }
    {
        Mark {
            high: b'G',
            low: b'L',
        }
    }

    ghost Meaning = { List ℕ };

    ghost meaning = { λ x. x.term.now };

    ghost reading = { part_of };

    ghost writing = { write_goal };

    ghost IsAt = { GoalHeld };

    fn read(reader: &mut Reader<'a>, mark: usize) -> Result<GoalRecord<'a>, Fault> {
        let term = reader.part(mark)?;
        let start = reader.at - term.len();
        Ok(GoalRecord {
            at: mark,
            start,
            term,
        })
    }
}
