// A round: opening an unknown that a goal waits on.
ghost use Rattle.rounds.specs.Steps.{Opening};

use crate::search::Search;
use crate::turn::Turn;
use answers::answer::Outcome;
use chooser::Chooser;
use recording::opening::allot;
use unknowns::opening::births;
use unknowns::table::{MOST, Table};

impl Search<'_> {
    // Opens the unknown, or stops the search for want of unknowns, variables or entries. The room for unknowns is tested before
    // the chooser is told anything, so that an opening is made whole or not at all.
    pub(crate) fn open<C: Chooser>(&self, chooser: &mut C, table: &mut Table, unknown: u16) -> Turn
        ensures { Opening self.now table.old unknown (C.Chooser.meaning chooser.old) table.new (C.Chooser.meaning chooser.new) result }
    {
        let at = unknown as usize;
        if at >= table.len {
            return Turn::Closed(Outcome::Foreign); // of no table that stands
        }
        let ty = table.rows[at].ty;
        if table.len + births(self.problem, ty) > MOST {
            return Turn::Closed(Outcome::SpentUnknowns);
        }
        match allot(chooser, self.problem.constructors(ty)) {
            Ok(first) => {
                table.open(self.problem, at, first);
                Turn::Opened
            }
            Err(_) => Turn::Closed(Outcome::SpentChooser),
        }
    }
}
