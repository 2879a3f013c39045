// The switches of the goals in force.
ghost use Rattle.std.specs.Prelude.{◌≡◌};
ghost use Rattle.finder.specs.Asking.{switches};
ghost use Rattle.problem.specs.Meant.{meant};
ghost use Rattle.unknowns.specs.Force.{forced};
ghost use Rattle.assuming.specs.Written.{Pushed};

use crate::writer::LiteralWriter;
use problem::problem::Problem;

impl<'a> LiteralWriter<'a> {
    // Writes the literals that the switches of the goals in force are on; a goal's switch is the variable of its number.
    pub(crate) fn push_switches(&mut self, problem: &Problem, force: &[bool; 32])
        ensures same_reference { self.new.literals.ghost_name ≡ self.old.literals.ghost_name }
        ensures pushed { Pushed self.old self.new (switches (meant problem.now) (forced force.now)) }
    {
        let goals = problem.goals().min(force.len());
        let in_force = &force[..goals];
        for (goal, forced) in in_force.iter().enumerate() {
            if *forced {
                self.push(2 * goal as u16);
            }
        }
    }
}
