// Searching.
ghost use Rattle.std.specs.Prelude.{◌≡◌, ℕ, ◌*◌, ◌≤◌, true, length, OnErr};
ghost use Rattle.problem.specs.Meant.{meant};
ghost use Rattle.chooser.specs.Meaning.{Same};
ghost use Rattle.finder.specs.Levels.{measures, too_shallow};
ghost use Rattle.histories.specs.States.{Session as Abstract, State, begun};
ghost use Rattle.histories.specs.Calls.{seen};
ghost use Rattle.histories.specs.Theorem.{NothingOverlooked};
ghost use Rattle.rounds.specs.Lent.{Kept};
ghost use Rattle.sessions.specs.Shown.{Shows, ShowsBegun};
ghost use Rattle.sessions.specs.Limits.{suffice};
ghost use Rattle.sessions.specs.Searching.{is_model_found, Sought, Searched};

use crate::faults::SessionFault;
use crate::limits::{check_limits, has_room};
use crate::seen::variables;
use crate::session::{Begun, Session};
use answers::answer::{Answer, Outcome};
use chooser::Chooser;
use problem::problem::Problem;
use rounds::search::{Lent, Limits, Search};

// The answer of a search that makes no round, since nothing is so shallow.
const NO_ROUND: Answer = Answer {
    outcome: Outcome::None,
    rounds: 0,
    opened: 0,
    recorded: 0,
};

// Whether some unknown of the problem has no value that is not deeper.
fn is_too_shallow(problem: &Problem, depth: usize) -> bool
    ensures { result ≡ too_shallow (meant problem.now) (measures (meant problem.now)) depth }
{
    problem
        .unknowns()
        .iter()
        .any(|ty| depth < usize::from(problem.least(*ty)))
}

// Whether the search found a model.
fn is_model(outcome: Outcome) -> bool
    ensures { result ≡ is_model_found outcome }
{
    matches!(outcome, Outcome::Model)
}

impl Begun {
    // The search of a session that is not refused.
    fn search<C: Chooser>(
        &mut self,
        problem: &Problem,
        chooser: &mut C,
        limits: Limits,
        way: &mut [u8],
        lent: &mut Lent<'_>,
    ) -> Answer
        requires places { 6 * limits.steps ≤ length lent.old.places.now }
        requires way { C.Chooser.MAX_VARIABLES ≤ length way.old }
        requires literals { C.Chooser.MAX_VARIABLES ≤ length lent.old.literals.now }
        ensures kept { Kept lent.old lent.new }
        ensures sought { (s : Abstract) → ShowsBegun self.old s → s.problem ≡ meant problem.now → seen (begun s) (C.Chooser.meaning chooser.old) ≡ true → Sought limits s (C.Chooser.meaning chooser.old) self.new (C.Chooser.meaning chooser.new) result }
    {
        if is_too_shallow(problem, limits.depth) {
            self.model = false;
            return NO_ROUND;
        }
        let search = Search {
            problem,
            force: &self.force,
            limits,
        };
        let answer = search.run(chooser, &mut self.table, &mut self.cases, way, lent);
        self.count = variables(chooser);
        self.left = chooser.entries_left();
        self.model = is_model(answer.outcome);
        answer
    }
}

impl Session {
    // Searches for an assignment no deeper than the depth under which each goal in force comes to true. What it answers is promised
    // where the problem and the chooser are those that the session began with. Refused, with nothing changed, with 40 where the
    // depth is out of its limits, then with 41 where the rounds or the steps are, then with 42 where what is lent does not suffice,
    // and then with 43 before begin and where the chooser is not as last seen.
    pub fn search<C: Chooser>(
        &mut self,
        problem: &Problem,
        chooser: &mut C,
        limits: Limits,
        way: &mut [u8],
        lent: &mut Lent<'_>,
    ) -> Result<Answer, SessionFault>
        ensures searched { (S : State) → Shows self.old S → Searched (meant problem.now) limits (suffice C.Chooser.MAX_VARIABLES limits.steps (length lent.old.places.now) (length way.old) (length lent.old.literals.now)) S (C.Chooser.meaning chooser.old) self.new (C.Chooser.meaning chooser.new) result }
        ensures theorem { NothingOverlooked }
        ensures refused { OnErr result ((self.new ≡ self.old) × Same (C.Chooser.meaning chooser.old) (C.Chooser.meaning chooser.new)) }
        ensures kept { Kept lent.old lent.new }
    {
        check_limits(limits)?;
        if !has_room::<C>(limits.steps, way, lent) {
            return Err(SessionFault::SmallBuffers);
        }
        let Some(begun) = &mut self.begun else {
            return Err(SessionFault::NotAsSeen);
        };
        if !begun.is_last_seen(chooser) {
            return Err(SessionFault::NotAsSeen);
        }
        Ok(begun.search(problem, chooser, limits, way, lent))
    }
}
