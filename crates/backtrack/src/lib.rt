// The search for a way that meets a row of clauses and a list of assumptions: backtracking with unit propagation.
// It is a loop over a trail of literals, and needs no stack that grows with the variables.
#![tactic(auto)]

ghost use Rattle.std.specs.Prelude.{◌≡◌, ℕ, ◌+◌, ◌≤◌, Bool, true, List, ◌∷◌, length};
ghost use Rattle.chooser.specs.Ways.{allotted};
ghost use Rattle.rows.specs.Rows.{inside};
ghost use Rattle.backtrack.specs.Solved.{allowed, Solved};
ghost use Rattle.backtrack.specs.Values.{opens};
ghost use Rattle.backtrack.specs.Trail.{Trail};
ghost use Rattle.backtrack.specs.Swept.{Passing, Visited, Swept};
ghost use Rattle.backtrack.specs.declared.trail.Step.{Step};

mod clause;
mod steps;
mod trail;

use chooser::Answer;
use clause::{Status, inspect};
use rows::{ClauseIter, turned};
pub use steps::Steps;
use steps::finish;
use trail::Step;

// The value of a variable that is open.
// Kept as it is: the values are the bytes of the answer, which the caller lends and which has 0 or 1 for each variable. An
// enum for them would be memory of the search's own, of a byte more for each variable.
const OPEN: u8 = 2;

// A clause or an assumption is false.
#[derive(Clone, Copy)]
pub(crate) struct Clash;

// What a pass over the assumptions and clauses came to, where none is false.
#[derive(Clone, Copy)]
pub(crate) enum Pass {
    // Literals were put on the trail, so that another pass is due.
    Moved,
    // A literal of a clause that is not met yet is open.
    Open(u16),
    // All are met.
    Met,
}

// Looks at a clause, and puts its literal on the trail where it leaves one alone. `open` is the first literal that a clause left
// open. It is written to in place, since as a result it would be tested once more for each clause.
fn visit<const N: usize>(
    clause: &[u16],
    values: &mut [u8],
    trail: &mut Steps<N>,
    open: &mut Option<u16>,
) -> Result<(), Clash>
    requires named { allotted (length values.old) clause.now ≡ true }
    requires room { opens values.old + length trail.old.list.items ≤ N }
    ensures { (X : (ℕ → Bool) → Bool) (left : List (List ℕ)) (start : List Step) → Passing X (clause.now ∷ left) start values.old trail.old.list.items «open».old → Visited X left start values.new trail.new.list.items «open».new result }
{
    match inspect(clause, values) {
        Status::Clash => return Err(Clash),
        Status::Forced(l) => trail.push(values, Step::Follows(l)),
        Status::Open(l) => *open = open.or(Some(l)),
        Status::Met => {}
    }
    Ok(())
}

// Goes over the assumptions, each a clause of one literal, and the clauses once.
fn sweep<const N: usize>(
    row: &[u16],
    assumptions: &[u16],
    values: &mut [u8],
    trail: &mut Steps<N>,
) -> Result<Pass, Clash>
    requires row { inside (length values.old) 0 row.now ≡ true }
    requires assumptions { allotted (length values.old) assumptions.now ≡ true }
    requires trail { Trail (allowed row.now assumptions.now) values.old trail.old.list.items }
    requires room { length values.old ≤ N }
    ensures { Swept (allowed row.now assumptions.now) trail.old.list.items values.new trail.new.list.items result }
{
    let from = trail.list.len();
    let mut open = None;
    for l in assumptions {
        visit(&[*l], values, trail, &mut open)?;
    }
    for clause in ClauseIter::new(row) {
        visit(clause, values, trail, &mut open)?;
    }
    if trail.list.len() > from {
        return Ok(Pass::Moved);
    }
    match open {
        Some(l) => Ok(Pass::Open(l)),
        None => Ok(Pass::Met),
    }
}

// Writes into `values` a way that meets every clause of the row and every assumption, or answers that there is none.
// `trail` is working memory; what it has at first does not count.
// It is not inlined into its caller, beside whose variables those of its loops would not stay in registers.
#[inline(never)]
pub fn solve<const N: usize>(
    row: &[u16],
    assumptions: &[u16],
    values: &mut [u8],
    trail: &mut Steps<N>,
) -> Answer
    requires room { length values.old ≤ N }
    requires row { inside (length values.old) 0 row.now ≡ true }
    requires assumptions { allotted (length values.old) assumptions.now ≡ true }
    ensures { Solved row.now assumptions.now values.new result }
{
    values.fill(OPEN);
    trail.list.clear();
    loop {
        match sweep(row, assumptions, values, trail) {
            Ok(Pass::Moved) => {}
            Ok(Pass::Open(l)) => trail.push(values, Step::Decided(l)),
            Ok(Pass::Met) => {
                finish(values);
                return Answer::Yes;
            }
            Err(Clash) => {
                let Some(l) = trail.take_back(values) else {
                    return Answer::No;
                };
                trail.push(values, Step::Follows(turned(l)));
            }
        }
    }
}
