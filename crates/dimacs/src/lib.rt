// Reads formulas in the DIMACS form: comment lines that begin with c, a header `p cnf VARIABLES CLAUSES`, and clauses as numbers,
// each clause ended by 0. A line behind the header that begins with % ends the text.
#![tactic(auto)]

ghost use Rattle.std.specs.Prelude.{◌≡◌, ◌+◌, ◌-◌, ◌≤◌, length, pos, negsuc, if◌then◌else◌, nat_eq};
ghost use Rattle.dimacs.specs.Feed.{line_of};
ghost use Rattle.dimacs.specs.Read.{bad_at, Reads};
ghost use Rattle.dimacs.specs.Spelled.{ReadAsSpelled};

use std::alloc::Global;

mod fault;
mod feed;
mod formula;
mod reader;
mod step;

pub use fault::{Fault, Kind, ReadError};
pub use formula::Formula;
use reader::Reader;

const NEWLINE: u8 = b'\n';

// Returns the number of the line, counted from 1, in which the byte at a place stands.
fn line_at(text: &[u8], at: usize) -> usize
    requires { at ≤ length text.now - 1 }
    ensures { result ≡ line_of text.now at }
{
    text[..at].iter().filter(|b| **b == NEWLINE).count() + 1
}

fn bad(text: &[u8], at: usize, kind: Kind) -> ReadError
    requires { at ≤ length text.now - 1 }
    ensures { result ≡ bad_at text.now at kind }
{
    ReadError::Bad(Fault {
        kind,
        line: line_at(text, at),
    })
}

// Reads a formula. The last line need not be ended, and what is missing at the end is told of the last line.
pub fn read(heap: Global, text: &[u8]) -> Result<Formula, ReadError>
    ensures { Reads text.now result }
{
    let mut reader = Reader::new(heap)?;
    for (i, b) in text.iter().enumerate() {
        reader.feed(*b).map_err(|kind| bad(text, i, kind))?;
    }
    let last = text.len().saturating_sub(1);
    reader.feed(NEWLINE).map_err(|kind| bad(text, last, kind))?;
    reader.finish().map_err(|kind| bad(text, last, kind))
}

// Shows that a text which spells a formula, its numbers by digits and a clause on each line, is read as that formula.
// It is a function so that src/ states the claim, in a contract; it does nothing.
pub fn spelled_stands()
    ensures { ReadAsSpelled }
{}

// Returns the number by which a text calls the literal that is true where a variable has a value.
// Kept as it is: the value is a byte of an answer that the caller lends, and a narrower type would ask more of callers.
pub fn true_literal(variable: u16, value: u8) -> i32
    ensures { result ≡ (if nat_eq value 1 then pos (variable + 1) else negsuc variable) }
{
    let n = variable as i32 + 1;
    if value == 1 { n } else { -n }
}
