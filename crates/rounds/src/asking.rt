// A round: what is asked of the chooser.
ghost use Rattle.std.specs.Prelude.{◌*◌, ◌≤◌, length};
ghost use Rattle.rounds.specs.Lent.{Kept};
ghost use Rattle.rounds.specs.Steps.{NeverOrNone};
ghost use Rattle.rounds.specs.Turns.{Turned};

use crate::search::{Lent, Search};
use crate::turn::Turn;
use answers::answer::Outcome;
use assuming::assume;
use chooser::{Answer, Chooser};
use unknowns::table::{Case, MOST, Table};

// Nothing is left within the depth: asks under the switches alone whether something is left at all.
fn none_or_never<C: Chooser>(chooser: &mut C, switches: &[u16], way: &mut [u8]) -> Outcome
    ensures { NeverOrNone (C.Chooser.meaning chooser.old) (C.Chooser.meaning chooser.new) switches.now (length way.old) result }
{
    match chooser.ask(switches, way) {
        Ok(Answer::Yes) => Outcome::None,
        Ok(Answer::No) => Outcome::Never,
        Err(_) => Outcome::Foreign,
    }
}

impl Search<'_> {
    // Asks the chooser for a way under the switches in force and the denials to the depth, and settles it.
    pub(crate) fn round<C: Chooser>(
        &self,
        chooser: &mut C,
        table: &mut Table,
        cases: &mut [Option<Case>; MOST],
        way: &mut [u8],
        lent: &mut Lent<'_>,
    ) -> Turn
        requires places { 6 * self.now.limits.steps ≤ length lent.old.places.now }
        requires way { C.Chooser.MAX_VARIABLES ≤ length way.old }
        requires literals { C.Chooser.MAX_VARIABLES ≤ length lent.old.literals.now }
        ensures kept { Kept lent.old lent.new }
        ensures turned { Turned self.now (C.Chooser.meaning chooser.old) table.old table.new (C.Chooser.meaning chooser.new) cases.new result }
    {
        let literals = &mut *lent.literals;
        let depth = self.limits.depth;
        let assumed = assume(self.problem, table, self.force, depth, literals);
        let variables = (C::MAX_VARIABLES - chooser.variables_left()) as usize;
        let way = &mut way[..variables];
        match chooser.ask(&literals[..assumed.all], way) {
            Ok(Answer::Yes) => self.settle(chooser, table, cases, way, lent),
            Ok(Answer::No) => {
                let switches = &literals[..assumed.switches];
                Turn::Closed(none_or_never(chooser, switches, way))
            }
            // Never from a table that stands: its literals are all of allotted variables.
            Err(_) => Turn::Closed(Outcome::Foreign),
        }
    }
}
