// The search with learning: propagate, decide, and at a clash learn a clause and jump back, until the answer is shown.
#![tactic(auto)]

ghost use Rattle.std.specs.Prelude.{◌≡◌, length};
ghost use Rattle.outcome.specs.Outcome.{Question};
ghost use Rattle.cdcl.specs.Ended.{Ended};

mod restarts;

use cdcl_steps::Solver;
use outcome::Next;
use restarts::Restarts;
use trail::Reason;

// What a search came to: a way is written out, no allowed way meets the assumptions, or no way is allowed at all.
#[derive(Clone, Copy, PartialEq, Eq, Debug)]
pub enum Outcome {
    Yes,
    No,
    Never,
}

// Searches for a way that meets each clause that was added and each assumption.
// Kept as it is: `given` and `out` beside each other, as in `conclude` of outcome, which says why.
pub fn run(solver: &mut Solver, given: &[u16], out: &mut [u8]) -> Outcome
    requires asks { Question solver.old.search.facts.store.row.items given.now (length out.old) }
    ensures store { solver.new.search.facts.store ≡ solver.old.search.facts.store }
    ensures ended { Ended solver.new.search.facts.store.row.items given.now out.new result }
{
    let mut plan = solver.begin(out.len());
    let mut restarts = Restarts::new();
    'turn: loop {
        if restarts.is_due() {
            restarts.begin_next();
            solver.restart(given, &mut plan);
            continue;
        }
        match solver.advance(given, &mut plan, out) {
            Next::Yes => return Outcome::Yes,
            Next::No => return Outcome::No,
            Next::Decide(l) => {
                let _ = solver.search.push(l, Reason::Decision);
            }
            Next::Clash(clash) => {
                if !solver.backjump(given, &mut plan, clash) {
                    return Outcome::Never;
                }
                restarts.count_clash();
            }
        }
    }
}
