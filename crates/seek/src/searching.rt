// Searching a problem with all its goals in force.

use crate::options::Options;
use answers::answer::{Answer, Outcome};
use chooser::Chooser;
use held::places::Place;
use judge::left::STEP_PLACES;
use models::writing::MOST_BYTES;
use problem::problem::Problem;
use rounds::search::{Lent, Limits};
use sessions::session::Session;
use std::fs;
use std::io::Write;
use std::ops::Range;
use telling::line::line;
use telling::show::show;

// No answer's line is longer.
const LONGEST_LINE: usize = 128;

// No byte of a model makes more than five of its text.
const LONGEST_TEXT: usize = 5 * MOST_BYTES;

#[derive(Drop)]
pub struct Seeker<'a> {
    pub rt: &'a HostRuntime,
    pub problem: &'a Problem,
    pub options: &'a Options,
}

impl Seeker<'_> {
    pub fn seek<C: Chooser>(&self, chooser: &mut C) -> anyhow::Result<()> {
        let mut session = Session::new();
        session.begin(self.problem, chooser)?;
        self.search_under(&mut session, chooser, 0..self.problem.goals() as u8)
    }

    // Puts the goals, each in a call of its own that holds its slip while the innermost searches.
    fn search_under<C: Chooser>(
        &self,
        session: &mut Session,
        chooser: &mut C,
        mut goals: Range<u8>,
    ) -> anyhow::Result<()> {
        let Some(goal) = goals.next() else {
            return self.search_depths(session, chooser);
        };
        match session.put(goal) {
            Ok(slip) => {
                let searched = self.search_under(session, chooser, goals);
                session.give_back(slip)?;
                searched
            }
            Err((fault, _blank)) => Err(fault.into()),
        }
    }

    // Searches one depth after the other, as long as there is no assignment so shallow.
    fn search_depths<C: Chooser>(
        &self,
        session: &mut Session,
        chooser: &mut C,
    ) -> anyhow::Result<()> {
        let heap = self.rt.alloc();
        let most = usize::from(C::MAX_VARIABLES);
        let Options { rounds, steps, .. } = *self.options;
        let mut way = vec![in heap; 0u8; most]?;
        let mut literals = vec![in heap; 0u16; most]?;
        let mut places = vec![in heap; Place::BLANK; steps.saturating_mul(STEP_PLACES)]?;
        let mut lent = Lent {
            places: &mut places,
            literals: &mut literals,
        };
        for depth in 1..=self.options.deepest {
            let limits = Limits {
                depth,
                rounds,
                steps,
            };
            let answer = session.search(self.problem, chooser, limits, &mut way, &mut lent)?;
            self.tell(depth, &answer)?;
            match answer.outcome {
                Outcome::None => {}
                Outcome::Model => return self.show_model(session),
                _ => return Ok(()),
            }
        }
        Ok(())
    }

    fn tell(&self, depth: usize, answer: &Answer) -> anyhow::Result<()> {
        let mut text = vec![in self.rt.alloc(); 0u8; LONGEST_LINE]?;
        let length = line(depth, answer, &mut text)?;
        text.truncate(length);
        Ok(self.rt.stdout().write_all(&text)?)
    }

    // Shows the model at hand, and keeps its bytes if so asked.
    fn show_model(&self, session: &Session) -> anyhow::Result<()> {
        let mut model = vec![in self.rt.alloc(); 0u8; MOST_BYTES]?;
        let length = session.model(self.problem, &mut model)?;
        model.truncate(length);
        if let Some(path) = &self.options.model {
            fs::write(self.rt, path.as_str(), &model)?;
        }
        let mut text = vec![in self.rt.alloc(); 0u8; LONGEST_TEXT]?;
        let length = show(self.problem, &model, &mut text)?;
        text.truncate(length);
        Ok(self.rt.stdout().write_all(&text)?)
    }
}
