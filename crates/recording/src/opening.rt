// The opening of an unknown: a variable for each of its cases, and the clauses that exactly one of them is 1.
ghost use Rattle.std.specs.Prelude.{◌≡◌, ◌+◌, ◌≤◌, MatchResult};
ghost use Rattle.finder.specs.Clauses.{opening_entries, entries, not_two, Extended};
ghost use Rattle.recording.specs.Opening.{Allots, Named};

use arrayvec::ArrayVec;
use chooser::{Chooser, Fault};

// The entries that an opening needs: one more than it has cases for the clause that one of them holds, and three for each
// two of them, which are not to hold together.
pub fn opening_needs(cases: u8) -> usize
    ensures { result ≡ opening_entries cases }
{
    let cases = cases as usize;
    (cases + 1) + 3 * (cases * cases.saturating_sub(1)) / 2
}

// Allots a variable for each case, and returns the literals that say that they are 1, at most as many as a `u8` counts.
fn allot_each<C: Chooser>(chooser: &mut C, cases: u8) -> Result<ArrayVec<u16, 255>, Fault>
    requires { cases ≤ (C.Chooser.meaning chooser.old).room }
    ensures { MatchResult result (λ v. Named (C.Chooser.meaning chooser.old) (C.Chooser.meaning chooser.new) cases v.items) (λ e. ⊥) }
{
    let mut literals = ArrayVec::new();
    for _ in 0..cases {
        let variable = chooser.new_variable()?;
        literals.push(2 * variable);
    }
    Ok(literals)
}

// Adds for each two of the cases, whose variables are from `first` on, that not both hold.
fn add_pairs<C: Chooser>(chooser: &mut C, first: u16, cases: u8) -> Result<(), Fault>
    requires named { first + cases ≤ (C.Chooser.meaning chooser.old).count }
    requires fits { entries (not_two first cases) ≤ (C.Chooser.meaning chooser.old).left }
    ensures { MatchResult result (λ u. Extended (C.Chooser.meaning chooser.old) (C.Chooser.meaning chooser.new) 0 (not_two first cases)) (λ e. ⊥) }
{
    for second in 0..cases as u16 {
        for other in 0..second {
            chooser.add(&[2 * (first + other) + 1, 2 * (first + second) + 1])?;
        }
    }
    Ok(())
}

// Allots a variable for each case, adds that one of the cases holds and that no two do, and returns the first variable.
// Refused, with nothing changed, with 61 when fewer variables are left, and then with 63 when fewer entries are left than
// the opening needs: so an opening is made whole or not at all.
pub fn allot<C: Chooser>(chooser: &mut C, cases: u8) -> Result<u16, Fault>
    ensures { Allots (C.Chooser.meaning chooser.old) (C.Chooser.meaning chooser.new) cases result }
{
    if chooser.variables_left() < cases as u16 {
        return Err(Fault::NoVariable);
    }
    if chooser.entries_left() < opening_needs(cases) {
        return Err(Fault::NoEntries);
    }
    let first = C::MAX_VARIABLES - chooser.variables_left();
    let one_holds = allot_each(chooser, cases)?;
    chooser.add(one_holds.as_slice())?;
    add_pairs(chooser, first, cases)?;
    Ok(first)
}
