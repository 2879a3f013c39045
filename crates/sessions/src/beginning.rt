// How a session begins.
ghost use Rattle.std.specs.Prelude.{◌≡◌, length, OnErr};
ghost use Rattle.problem.specs.Meant.{meant};
ghost use Rattle.chooser.specs.Meaning.{Meaning, Same};
ghost use Rattle.histories.specs.States.{State, start};
ghost use Rattle.sessions.specs.Shown.{Shows, ShowsBegun};
ghost use Rattle.sessions.specs.Beginning.{IsNew, Switches, Began};

use crate::faults::SessionFault;
use crate::session::{Begun, MOST_GOALS, Session};
use chooser::{Answer, Chooser, Fault};
use problem::problem::Problem;
use unknowns::table::{MOST, Table};

// Whether the chooser has no variables and allows a way: then it allows the only one that there is. Where it has variables, it
// refuses an answer that has no byte for them.
fn is_new<C: Chooser>(chooser: &mut C) -> bool
    ensures same { Same (C.Chooser.meaning chooser.old) (C.Chooser.meaning chooser.new) }
    ensures new { IsNew (C.Chooser.meaning chooser.old) result }
{
    matches!(chooser.ask(&[], &mut []), Ok(Answer::Yes))
}

// Allots a switch for each goal. Refused, with nothing changed, where the chooser has fewer variables left.
fn allot_switches<C: Chooser>(chooser: &mut C, goals: u16) -> Result<(), Fault>
    ensures { Switches (C.Chooser.meaning chooser.old) (C.Chooser.meaning chooser.new) goals result }
{
    if chooser.variables_left() < goals {
        return Err(Fault::NoVariable);
    }
    for _ in 0..goals {
        chooser.new_variable()?;
    }
    Ok(())
}

impl Begun {
    // The session of a problem as it begins, its switches being all variables that its chooser has.
    fn new(problem: &Problem, left: usize) -> Begun
        ensures { (M : Meaning) → M.count ≡ length (meant problem.now).goals → M.left ≡ left → ShowsBegun result (start (meant problem.now) M) }
    {
        let goals = problem.goals();
        Begun {
            goals,
            force: [false; MOST_GOALS],
            table: Table::new(problem),
            count: goals as u16,
            left,
            cases: [None; MOST],
            model: false,
        }
    }
}

impl Session {
    // Begins anew with a problem and a chooser, in which it allots a switch for each goal. Refused, with nothing changed, with 20
    // where the chooser has variables or allows no way, and then with 21 where it has fewer variables left than there are goals.
    pub fn begin<C: Chooser>(
        &mut self,
        problem: &Problem,
        chooser: &mut C,
    ) -> Result<(), SessionFault>
        ensures begins { (S : State) → Shows self.old S → Began (meant problem.now) S (C.Chooser.meaning chooser.old) self.new (C.Chooser.meaning chooser.new) result }
        ensures refused { OnErr result ((self.new ≡ self.old) × Same (C.Chooser.meaning chooser.old) (C.Chooser.meaning chooser.new)) }
    {
        if !is_new(chooser) {
            return Err(SessionFault::NotNew);
        }
        allot_switches(chooser, problem.goals() as u16)?;
        self.begun = Some(Begun::new(problem, chooser.entries_left()));
        Ok(())
    }
}
