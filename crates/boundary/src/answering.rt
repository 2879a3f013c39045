// The answer of a search, as it crosses to C.
ghost use Rattle.std.specs.Prelude.{◌≡◌};
ghost use Rattle.boundary.specs.Answering.{outcome_number, goal_of, as_written, Reads};

use crate::faults::LoadFault;
use answers::answer::{Answer, Outcome};

#[repr(C)]
#[derive(Clone, Copy, PartialEq, Eq, Debug)]
pub struct DepthAnswer {
    // The outcome's number, from 1 on, so that blank memory is no answer.
    pub outcome: u8,
    // The goal for which the steps did not suffice; 0 with any other outcome.
    pub goal: u8,
    pub rounds: usize,
    pub opened: usize,
    pub recorded: usize,
}

// The number of an outcome.
fn number(outcome: Outcome) -> u8
    ensures { result ≡ outcome_number outcome }
{
    match outcome {
        Outcome::Model => 1,
        Outcome::None => 2,
        Outcome::Never => 3,
        Outcome::Foreign => 4,
        Outcome::SpentRounds => 5,
        Outcome::SpentSteps(_) => 6,
        Outcome::SpentUnknowns => 7,
        Outcome::SpentChooser => 8,
    }
}

fn goal(outcome: Outcome) -> u8
    ensures { result ≡ goal_of outcome }
{
    match outcome {
        Outcome::SpentSteps(goal) => goal,
        _ => 0,
    }
}

impl DepthAnswer {
    pub fn of(answer: Answer) -> DepthAnswer
        ensures { result ≡ as_written answer }
    {
        DepthAnswer {
            outcome: number(answer.outcome),
            goal: goal(answer.outcome),
            rounds: answer.rounds,
            opened: answer.opened,
            recorded: answer.recorded,
        }
    }

    // The answer that is written so, if one is.
    pub fn read(&self) -> Result<Answer, LoadFault>
        ensures { Reads self.now result }
    {
        let outcome = match (self.outcome, self.goal) {
            (1, 0) => Outcome::Model,
            (2, 0) => Outcome::None,
            (3, 0) => Outcome::Never,
            (4, 0) => Outcome::Foreign,
            (5, 0) => Outcome::SpentRounds,
            (6, goal) => Outcome::SpentSteps(goal),
            (7, 0) => Outcome::SpentUnknowns,
            (8, 0) => Outcome::SpentChooser,
            _ => return Err(LoadFault::NoAnswer),
        };
        Ok(Answer {
            outcome,
            rounds: self.rounds,
            opened: self.opened,
            recorded: self.recorded,
        })
    }
}
