// The record of a conflict: the clause that its goal's switch is off, or one of the cases that explain it differs.
ghost use Rattle.std.specs.Prelude.{◌≡◌, ◌+◌, ◌≤◌, length, MatchOption, OnErr};
ghost use Rattle.chooser.specs.Meaning.{Same};
ghost use Rattle.finder.specs.Clauses.{off as says-off};
ghost use Rattle.held.specs.Explanations.{contains};
ghost use Rattle.recording.specs.Conflict.{Appends, Writes, clause_of, Records};

use chooser::{Chooser, Fault};
use held::explanation::Explanation;
use unknowns::table::{Case, Table};

// The literal that says that the variable of a case is 0, if it has 16 bits.
fn off(first: u16, case: u8) -> Option<u16>
    ensures { MatchOption result (65536 ≤ says-off (first + case)) (λ l. l ≡ says-off (first + case)) }
{
    first
        .checked_add(case as u16)?
        .checked_mul(2)?
        .checked_add(1)
}

// Writes a literal after the first `len`, if there is room, and returns how many there are then.
fn append(literals: &mut [u16], len: usize, literal: u16) -> Option<usize>
    ensures { Appends literals.old literals.new len literal result }
{
    if len < literals.len() {
        literals[len] = literal;
        Some(len + 1)
    } else {
        None
    }
}

// Writes the clause: the goal's switch, and then the cases of the unknowns in the explanation, in the order of the table.
// Returns its length, or none where it has no room or a literal has more than 16 bits.
fn write_clause(
    table: &Table,
    cases: &[Option<Case>; 512],
    because: &Explanation,
    goal: u8,
    literals: &mut [u16],
) -> Option<usize>
    ensures { Writes (clause_of table.now cases.now (contains because.now.words) goal) literals.old literals.new result }
{
    let mut len = append(literals, 0, off(goal as u16, 0)?)?;
    for (at, unknown) in table.rows[..table.len].iter().enumerate() {
        if !because.has(at as u16) {
            continue;
        }
        let (Some(first), Some(case)) = (unknown.first, cases[at]) else {
            continue;
        };
        len = append(literals, len, off(first, case.constructor)?)?;
    }
    Some(len)
}

// Writes the clause of the conflict into the memory that is lent, and adds it. Refused, with the chooser unchanged, with 63
// when too few entries are left. (So is a table that stands for none, where the clause has no room or a case no literal.)
pub fn record<C: Chooser>(
    chooser: &mut C,
    table: &Table,
    cases: &[Option<Case>; 512],
    because: &Explanation,
    goal: u8,
    literals: &mut [u16],
) -> Result<(), Fault>
    ensures records { Records (C.Chooser.meaning chooser.old) (C.Chooser.meaning chooser.new) table.now cases.now because.now.words goal (length literals.old) result }
    ensures refused { OnErr result (Same (C.Chooser.meaning chooser.old) (C.Chooser.meaning chooser.new)) }
{
    let Some(len) = write_clause(table, cases, because, goal, literals) else {
        return Err(Fault::NoEntries);
    };
    chooser.add(&literals[..len])
}
