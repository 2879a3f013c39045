// A formula put to any chooser: proved once, from the chooser's meaning alone.
#![tactic(auto)]

ghost use Rattle.std.specs.Prelude.{◌≡◌, ◌≤◌, true, length};
ghost use Rattle.rows.specs.Rows.{inside};
ghost use Rattle.decide.specs.Decided.{Taken, Narrowed, Accepted, Decided};

use chooser::{Answer, Chooser, Fault};
use rows::{ClauseIter, is_whole};

// Allots so many variables.
fn allot<C: Chooser>(chooser: &mut C, variables: u16) -> Result<(), Fault>
    requires { variables ≤ (C.meaning chooser.old).room }
    ensures { Accepted (Taken (C.meaning chooser.old) (C.meaning chooser.new) variables) result }
{
    for _ in 0..variables {
        chooser.new_variable()?;
    }
    Ok(())
}

// Adds each clause of the row.
fn add_row<C: Chooser>(chooser: &mut C, row: &[u16]) -> Result<(), Fault>
    requires whole { inside (C.meaning chooser.old).count 0 row.now ≡ true }
    requires fits { length row.now ≤ (C.meaning chooser.old).left }
    ensures { Accepted (Narrowed (C.meaning chooser.old) (C.meaning chooser.new) row.now) result }
{
    for clause in ClauseIter::new(row) {
        chooser.add(clause)?;
    }
    Ok(())
}

// Allots so many variables, adds each clause of the row, and asks for a way that is allowed then.
// The row has its clauses one after another, each as its length and then its literals.
// Refused, with nothing changed, with 61 when fewer variables are left, with 62 when the row has not whole clauses over the
// variables allotted then, with 63 when fewer entries are left than the row has numbers, and with 64 when `answer` has not one
// byte for each variable allotted then.
pub fn decide<C: Chooser>(
    chooser: &mut C,
    variables: u16,
    row: &[u16],
    answer: &mut [u8],
) -> Result<Answer, Fault>
    ensures { Decided (C.meaning chooser.old) (C.meaning chooser.new) variables row.now answer.old answer.new result }
{
    if chooser.variables_left() < variables {
        return Err(Fault::NoVariable);
    }
    let count = C::MAX_VARIABLES - chooser.variables_left() + variables;
    if !is_whole(count, row) {
        return Err(Fault::Unallotted);
    }
    if chooser.entries_left() < row.len() {
        return Err(Fault::NoEntries);
    }
    if answer.len() != count as usize {
        return Err(Fault::WrongLength);
    }
    allot(chooser, variables)?;
    add_row(chooser, row)?;
    chooser.ask(&[], answer)
}
