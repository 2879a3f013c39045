// Searching one depth after the other.
ghost use Rattle.std.specs.Prelude.{◌≡◌, ◌*◌, ◌≤◌, length};
ghost use Rattle.problem.specs.Meant.{meant};
ghost use Rattle.loader.specs.Requests.{Admits};
ghost use Rattle.loader.specs.Sessions.{Put};
ghost use Rattle.loader.specs.Depths.{goes_on, Deepened};

use crate::under_goals::Seeker;
use answers::answer::Outcome;
use boundary::answering::DepthAnswer;
use chooser::Chooser;
use rounds::search::{Lent, Limits};
use sessions::session::Session;

// Whether the next depth is to be searched.
fn goes_on(outcome: Outcome) -> bool
    ensures { result ≡ goes_on outcome }
{
    matches!(outcome, Outcome::None)
}

impl Seeker<'_> {
    // Searches the depths, as long as there is no assignment so shallow, and answers how many were searched.
    pub(crate) fn search_depths<C: Chooser>(
        &self,
        session: &mut Session,
        chooser: &mut C,
        way: &mut [u8],
        lent: &mut Lent<'_>,
        answers: &mut [DepthAnswer],
    ) -> usize
        requires put { Put (meant self.now.problem.now) (C.Chooser.meaning chooser.old) (length (meant self.now.problem.now).goals) session.old }
        requires places { 6 * self.now.request.steps ≤ length lent.old.places.now }
        requires way { C.Chooser.MAX_VARIABLES ≤ length way.old }
        requires literals { C.Chooser.MAX_VARIABLES ≤ length lent.old.literals.now }
        requires admits { Admits self.now.request (length answers.old) }
        ensures { Deepened (meant self.now.problem.now) (C.Chooser.meaning chooser.old) self.now.request answers.old answers.new session.new (C.Chooser.meaning chooser.new) result }
    {
        let depths = self.request.last - self.request.first + 1;
        for searched in 0..depths {
            let limits = Limits {
                depth: self.request.first + searched,
                rounds: self.request.rounds,
                steps: self.request.steps,
            };
            let Ok(answer) = session.search(self.problem, chooser, limits, way, lent) else {
                unreachable!();
            };
            answers[searched] = DepthAnswer::of(answer);
            if !goes_on(answer.outcome) {
                return searched + 1;
            }
        }
        depths
    }
}
