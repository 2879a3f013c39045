// Searching under the goals: each is put by a call of its own that holds its slip while the innermost searches.
ghost use Rattle.std.specs.Prelude.{◌*◌, ◌≤◌, length};
ghost use Rattle.problem.specs.Meant.{meant};
ghost use Rattle.loader.specs.Requests.{Admits};
ghost use Rattle.loader.specs.Sessions.{Put};
ghost use Rattle.loader.specs.Searching.{Sought};

use crate::request::Request;
use crate::searching::Found;
use boundary::answering::DepthAnswer;
use chooser::Chooser;
use problem::problem::Problem;
use rounds::search::Lent;
use sessions::session::Session;

#[derive(Drop)]
pub(crate) struct Seeker<'a> {
    pub(crate) problem: &'a Problem,
    pub(crate) request: Request,
}

impl Seeker<'_> {
    // Searches one depth after the other, and writes the model if one is found.
    fn search_innermost<C: Chooser>(
        &self,
        session: &mut Session,
        chooser: &mut C,
        way: &mut [u8],
        lent: &mut Lent<'_>,
        answers: &mut [DepthAnswer],
        model: &mut [u8],
    ) -> Found
        requires put { Put (meant self.now.problem.now) (C.Chooser.meaning chooser.old) (length (meant self.now.problem.now).goals) session.old }
        requires places { 6 * self.now.request.steps ≤ length lent.old.places.now }
        requires way { C.Chooser.MAX_VARIABLES ≤ length way.old }
        requires literals { C.Chooser.MAX_VARIABLES ≤ length lent.old.literals.now }
        requires admits { Admits self.now.request (length answers.old) }
        requires model { 1584 ≤ length model.old }
        ensures { Sought (meant self.now.problem.now) (C.Chooser.meaning chooser.old) self.now.request answers.old answers.new model.old model.new result }
    {
        let searched = self.search_depths(session, chooser, way, lent, answers);
        Found {
            answers: searched,
            model: session.model(self.problem, model).unwrap_or(0),
        }
    }

    // Puts the goals from this one on.
    pub(crate) fn search_under<C: Chooser>(
        &self,
        session: &mut Session,
        chooser: &mut C,
        way: &mut [u8],
        lent: &mut Lent<'_>,
        answers: &mut [DepthAnswer],
        model: &mut [u8],
        goal: u8,
    ) -> Found
        requires put { Put (meant self.now.problem.now) (C.Chooser.meaning chooser.old) goal session.old }
        requires goal { goal ≤ length (meant self.now.problem.now).goals }
        requires places { 6 * self.now.request.steps ≤ length lent.old.places.now }
        requires way { C.Chooser.MAX_VARIABLES ≤ length way.old }
        requires literals { C.Chooser.MAX_VARIABLES ≤ length lent.old.literals.now }
        requires admits { Admits self.now.request (length answers.old) }
        requires model { 1584 ≤ length model.old }
        ensures { Sought (meant self.now.problem.now) (C.Chooser.meaning chooser.old) self.now.request answers.old answers.new model.old model.new result }
    {
        if usize::from(goal) >= self.problem.goals() {
            return self.search_innermost(session, chooser, way, lent, answers, model);
        }
        match session.put(goal) {
            Ok(slip) => {
                let found = self.search_under(
                    session,
                    chooser,
                    way,
                    lent,
                    answers,
                    model,
                    goal + 1,
                );
                // The session is done with, so what becomes of the goal is no matter.
                let _ = session.give_back(slip);
                found
            }
            Err(_) => unreachable!(),
        }
    }
}
