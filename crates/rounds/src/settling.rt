// A round: what is made of the way that the chooser picked.
ghost use Rattle.std.specs.Prelude.{◌*◌, ◌≤◌, length};
ghost use Rattle.rounds.specs.Lent.{Kept};
ghost use Rattle.rounds.specs.Steps.{Settling, Judging};

use crate::search::{Lent, Search};
use crate::turn::Turn;
use answers::answer::Outcome;
use cases::decide::decide;
use chooser::Chooser;
use finding::find::{Finding, find};
use held::explanation::Explanation;
use recording::conflict::record;
use unknowns::table::{Case, MOST, Table};

impl Search<'_> {
    // Reads off the way which case each opened unknown has, and judges the goals by it.
    #[tactic(auto, using(crate::proofs::Settled::settled_foreign, crate::proofs::Settled::settled_own))]
    pub(crate) fn settle<C: Chooser>(
        &self,
        chooser: &mut C,
        table: &mut Table,
        cases: &mut [Option<Case>; MOST],
        way: &[u8],
        lent: &mut Lent<'_>,
    ) -> Turn
        requires { 6 * self.now.limits.steps ≤ length lent.old.places.now }
        ensures kept { Kept lent.old lent.new }
        ensures settled { Settling self.now table.old way.now (length lent.old.literals.now) (C.Chooser.meaning chooser.old) table.new (C.Chooser.meaning chooser.new) cases.new result }
    {
        if !decide(self.problem, table, way, cases) {
            return Turn::Closed(Outcome::Foreign);
        }
        self.judge(chooser, table, cases, lent)
    }

    // Judges the goals in force under the cases. A false goal's conflict is recorded; what a goal waits on is opened; with
    // neither, there is a model.
    fn judge<C: Chooser>(
        &self,
        chooser: &mut C,
        table: &mut Table,
        cases: &[Option<Case>; MOST],
        lent: &mut Lent<'_>,
    ) -> Turn
        requires { 6 * self.now.limits.steps ≤ length lent.old.places.now }
        ensures kept { Kept lent.old lent.new }
        ensures judged { Judging self.now table.old cases.now (length lent.old.literals.now) (C.Chooser.meaning chooser.old) table.new (C.Chooser.meaning chooser.new) result }
    {
        let mut because = Explanation::nothing();
        let steps = self.limits.steps;
        match find(
            self.problem,
            cases,
            self.force,
            lent.places,
            &mut because,
            steps,
        ) {
            Finding::Out(goal) => Turn::Closed(Outcome::SpentSteps(goal)),
            Finding::False(goal) => {
                match record(chooser, table, cases, &because, goal, lent.literals) {
                    Ok(()) => Turn::Recorded,
                    Err(_) => Turn::Closed(Outcome::SpentChooser),
                }
            }
            Finding::Waiting(unknown) => self.open(chooser, table, unknown),
            Finding::True => Turn::Closed(Outcome::Model),
        }
    }
}
