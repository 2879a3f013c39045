// The denials to a depth.
ghost use Rattle.std.specs.Prelude.{◌≡◌, ◌+◌, ◌-◌};
ghost use Rattle.finder.specs.Clauses.{off as off-of};
ghost use Rattle.problem.specs.Meant.{sig};
ghost use Rattle.assuming.specs.Denied.{capped, row_denials, denials};
ghost use Rattle.assuming.specs.Written.{Pushed};

use crate::writer::LiteralWriter;
use problem::problem::Problem;
use unknowns::table::Unknown;

// The depth that is reached from a level by what is so deep by itself.
fn reach(level: u16, depth: u8) -> usize
    ensures { result ≡ level + depth - 1 }
{
    (usize::from(level) + usize::from(depth)).saturating_sub(1)
}

// The literal that denies a case of the unknown whose variables begin at `first`. Where 16 bits cannot hold it, it is the greatest
// number that they do: a table of a session has no variable so high.
fn denial(first: u16, case: u8) -> u16
    ensures { result ≡ capped (off-of (first + case)) }
{
    first
        .saturating_add(u16::from(case))
        .saturating_mul(2)
        .saturating_add(1)
}

impl<'a> LiteralWriter<'a> {
    // Denies the cases of an opened unknown that reach beyond the depth. Where the unknown does not fit the depth, all of them do.
    // None is denied then: that would leave it no case, and rule out ways whose values never come to it.
    fn deny(&mut self, problem: &Problem, unknown: &Unknown, depth: usize)
        ensures same_reference { self.new.literals.ghost_name ≡ self.old.literals.ghost_name }
        ensures pushed { Pushed self.old self.new (row_denials (sig problem.now) depth unknown.now) }
    {
        let Some(first) = unknown.first else {
            return;
        };
        if reach(unknown.level, problem.least(unknown.ty)) > depth {
            return;
        }
        for case in 0..problem.constructors(unknown.ty) {
            if reach(unknown.level, problem.need(unknown.ty, case)) > depth {
                self.push(denial(first, case));
            }
        }
    }

    // Writes the denials of each unknown, in order.
    pub(crate) fn push_denials(&mut self, problem: &Problem, unknowns: &[Unknown], depth: usize)
        ensures same_reference { self.new.literals.ghost_name ≡ self.old.literals.ghost_name }
        ensures pushed { Pushed self.old self.new (denials (sig problem.now) depth unknowns.now) }
    {
        for unknown in unknowns {
            self.deny(problem, unknown, depth);
        }
    }
}
