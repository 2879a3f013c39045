// Handing over the model at hand.
ghost use Rattle.std.specs.Prelude.{◌≡◌, OnErr};
ghost use Rattle.problem.specs.Meant.{meant};
ghost use Rattle.histories.specs.States.{State};
ghost use Rattle.sessions.specs.Shown.{Shows};
ghost use Rattle.sessions.specs.Modelling.{Modelled};

use crate::faults::SessionFault;
use crate::session::Session;
use models::writing::write_model;
use problem::problem::Problem;

impl Session {
    // Writes the model at hand as bytes, and answers how many. They are the model's, and a replay of them makes each goal in force
    // true, where the problem is the one that the session began with. Refused, with the output as it was, with 45 where no model is
    // at hand, before begin too, and then with 46 where the output is too short.
    pub fn model(&self, problem: &Problem, output: &mut [u8]) -> Result<usize, SessionFault>
        ensures modelled { (S : State) → Shows self.now S → Modelled (meant problem.now) S output.old output.new result }
        ensures refused { OnErr result (output.new ≡ output.old) }
    {
        match &self.begun {
            Some(begun) if begun.model => {
                Ok(write_model(problem, &begun.table, &begun.cases, output)?)
            }
            _ => Err(SessionFault::NoModel),
        }
    }
}
