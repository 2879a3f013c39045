// Which goals are in force.
ghost use Rattle.std.specs.Prelude.{◌≡◌, ◌<◌, true, false, OnErr, MatchResult};
ghost use Rattle.std.proofs.Math.Option.{none, some};
ghost use Rattle.unknowns.specs.Listing.{maybe};
ghost use Rattle.histories.specs.States.{State};
ghost use Rattle.histories.specs.Calls.{put_refusal, after_put, give_back_refusal, after_give_back};
ghost use Rattle.sessions.specs.Faults.{refusal_of};
ghost use Rattle.sessions.specs.Shown.{Shows};
ghost use Rattle.sessions.specs.Force.{SetsForce, Makes};

use crate::faults::SessionFault;
use crate::session::{Begun, Session};
use crate::slip::Slip;

impl Begun {
    // A model at hand is of the goals that were in force, and so is at hand no longer.
    fn set_force(&mut self, goal: u8, force: bool)
        requires { goal < self.old.goals }
        ensures { SetsForce self.old goal force self.new }
    {
        self.force[goal as usize] = force;
        self.model = false;
    }
}

impl Session {
    // Brings a goal into force that is not.
    fn bring(&mut self, goal: u8) -> Result<(), SessionFault>
        ensures { Makes (λ S. put_refusal S goal) (λ S. after_put S goal) self.old self.new result }
    {
        match &mut self.begun {
            Some(begun) if (goal as usize) < begun.goals => {
                if begun.force[goal as usize] {
                    return Err(SessionFault::InForce);
                }
                begun.set_force(goal, true);
                Ok(())
            }
            _ => Err(SessionFault::NoSuchGoal),
        }
    }

    // Ends the force of a goal that is in force.
    fn end(&mut self, goal: u8) -> Result<(), SessionFault>
        ensures { Makes (λ S. give_back_refusal S (some goal)) (λ S. after_give_back S (some goal)) self.old self.new result }
    {
        match &mut self.begun {
            Some(begun) if (goal as usize) < begun.goals && begun.force[goal as usize] => {
                begun.set_force(goal, false);
                Ok(())
            }
            _ => Err(SessionFault::NotInForce),
        }
    }

    // Brings a goal into force and hands out a live slip for it. Refused, with nothing changed and a blank slip, with 30 where
    // the problem has no such goal, before begin too, and then with 31 where the goal is in force.
    pub fn put(&mut self, goal: u8) -> Result<Slip, (SessionFault, Slip)>
        ensures refusal { (S : State) → Shows self.old S → MatchResult result (λ slip. put_refusal S goal ≡ none) (λ e. put_refusal S goal ≡ some (refusal_of e.0)) }
        ensures state { (S : State) → Shows self.old S → Shows self.new (after_put S goal) }
        ensures slip { MatchResult result (λ slip. slip.goal ≡ Some goal) (λ e. (e.1.goal ≡ None) × (self.new ≡ self.old)) }
    {
        match self.bring(goal) {
            Ok(()) => Ok(Slip { goal: Some(goal) }),
            Err(fault) => Err((fault, Slip { goal: None })),
        }
    }

    // Ends the force of the slip's goal. Refused, with nothing changed, with 32 where the goal is not in force or the slip is blank.
    pub fn give_back(&mut self, slip: Slip) -> Result<(), SessionFault>
        ensures { Makes (λ S. give_back_refusal S (maybe slip.goal)) (λ S. after_give_back S (maybe slip.goal)) self.old self.new result }
    {
        match slip.into_goal() {
            Some(goal) => self.end(goal),
            None => Err(SessionFault::NotInForce),
        }
    }
}
