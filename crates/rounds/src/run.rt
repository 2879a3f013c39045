// Going from round to round.
ghost use Rattle.std.specs.Prelude.{◌*◌, ◌≤◌, length};
ghost use Rattle.rounds.specs.Lent.{Kept};
ghost use Rattle.rounds.specs.Run.{Ran};

use crate::search::{Lent, Search};
use crate::turn::Turn;
use answers::answer::{Answer, Outcome};
use chooser::Chooser;
use unknowns::table::{Case, MOST, Table};

impl Search<'_> {
    // Makes rounds until one closes the search or no rounds are left. From a table that stands these are rounds as the relation has
    // them, and where the outcome is `Model`, `cases` has the cases of that model's way. With any other table it returns too.
    pub fn run<C: Chooser>(
        &self,
        chooser: &mut C,
        table: &mut Table,
        cases: &mut [Option<Case>; MOST],
        way: &mut [u8],
        lent: &mut Lent<'_>,
    ) -> Answer
        requires places { 6 * self.now.limits.steps ≤ length lent.old.places.now }
        requires way { C.Chooser.MAX_VARIABLES ≤ length way.old }
        requires literals { C.Chooser.MAX_VARIABLES ≤ length lent.old.literals.now }
        ensures kept { Kept lent.old lent.new }
        ensures ran { Ran self.now (C.Chooser.meaning chooser.old) table.old table.new (C.Chooser.meaning chooser.new) cases.new result }
    {
        let mut opened = 0;
        let mut recorded = 0;
        for made in 0..self.limits.rounds {
            match self.round(chooser, table, cases, way, lent) {
                Turn::Opened => opened += 1,
                Turn::Recorded => recorded += 1,
                Turn::Closed(outcome) => {
                    return Answer {
                        outcome,
                        rounds: made + 1,
                        opened,
                        recorded,
                    };
                }
            }
        }
        Answer {
            outcome: Outcome::SpentRounds,
            rounds: self.limits.rounds,
            opened,
            recorded,
        }
    }
}
