// The library's own answers, by its calls on a session.

use crate::problems::REQUEST;
use answers::answer::{Answer, Outcome};
use chooser::Chooser;
use held::places::Place;
use judge::left::STEP_PLACES;
use models::writing::MOST_BYTES;
use problem::problem::Problem;
use rounds::search::{Lent, Limits};
use sessions::session::Session;
use std::alloc::Global;
use std::ops::Range;
use std::test::Fail;

// The answers at the depths from 1 on, up to the first other than NONE, and the bytes of a model.
#[derive(Drop)]
pub struct Found {
    pub answers: Vec<Answer>,
    pub model: Vec<u8>,
}

#[derive(Drop)]
struct Library<'a> {
    heap: Global,
    problem: &'a Problem,
}

impl Library<'_> {
    fn under<C: Chooser>(
        &self,
        session: &mut Session,
        chooser: &mut C,
        mut goals: Range<u8>,
        found: &mut Found,
    ) -> Result<(), Fail> {
        let Some(goal) = goals.next() else {
            return self.depths(session, chooser, found);
        };
        match session.put(goal) {
            Ok(slip) => {
                let searched = self.under(session, chooser, goals, found);
                let given_back = session.give_back(slip);
                searched?;
                Ok(given_back?)
            }
            Err((fault, _blank)) => Err(Fail::from(fault)),
        }
    }

    fn depths<C: Chooser>(
        &self,
        session: &mut Session,
        chooser: &mut C,
        found: &mut Found,
    ) -> Result<(), Fail> {
        let most = usize::from(C::MAX_VARIABLES);
        let mut way = vec![in self.heap; 0u8; most]?;
        let mut literals = vec![in self.heap; 0u16; most]?;
        let mut places = vec![in self.heap; Place::BLANK; STEP_PLACES * REQUEST.steps]?;
        let mut lent = Lent {
            places: &mut places,
            literals: &mut literals,
        };
        for depth in REQUEST.first..=REQUEST.last {
            let limits = Limits {
                depth,
                rounds: REQUEST.rounds,
                steps: REQUEST.steps,
            };
            let answer = session.search(self.problem, chooser, limits, &mut way, &mut lent)?;
            found.answers.push(answer)?;
            if answer.outcome != Outcome::None {
                break;
            }
        }
        let length = session.model(self.problem, &mut found.model).unwrap_or(0);
        found.model.truncate(length);
        Ok(())
    }
}

pub fn search<C: Chooser>(heap: Global, problem: &Problem, chooser: &mut C) -> Result<Found, Fail> {
    let mut found = Found {
        answers: Vec::new(heap),
        model: vec![in heap; 0u8; MOST_BYTES]?,
    };
    let library = Library { heap, problem };
    let mut session = Session::new();
    session.begin(problem, chooser)?;
    library.under(
        &mut session,
        chooser,
        0..problem.goals().min(32) as u8,
        &mut found,
    )?;
    Ok(found)
}
