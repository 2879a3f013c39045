// Opening an unknown: which children it gets, and at which level.
ghost use Rattle.std.specs.Prelude.{◌≡◌, ◌+◌, ◌<◌, ◌≤◌};
ghost use Rattle.syntax.specs.Problems.{sig_of};
ghost use Rattle.syntax.specs.Typing.{cases_of};
ghost use Rattle.syntax.specs.Values.{cost as cost-of};
ghost use Rattle.problem.specs.Meant.{meant};
ghost use Rattle.places.specs.Places.{births as births-of};
ghost use Rattle.unknowns.specs.Listing.{row};
ghost use Rattle.unknowns.specs.Opening.{Opens};

use crate::table::{Table, Unknown};
use problem::problem::Problem;

// What a constructor adds to the depth of its value: the one place where levels get it from.
fn cost(_problem: &Problem, _ty: u8, _constructor: u8) -> u16
    ensures { result ≡ cost-of (sig_of (meant _problem.now)) _ty _constructor }
{
    1
}

// How many children the opening of an unknown of this type appends.
pub fn births(problem: &Problem, ty: u8) -> usize
    ensures is { result ≡ births-of (cases_of (sig_of (meant problem.now)) ty) }
    ensures few { result ≤ 96 }
{
    (0..problem.constructors(ty))
        .map(|constructor| problem.arguments(ty, constructor).len())
        .sum()
}

impl Table {
    // Opens the unknown at a place: its variables are those from `first` on, and its children are appended by constructor,
    // then argument. A level goes no higher than its bits; those of a session's table are at most its length, and fit.
    pub fn open(&mut self, problem: &Problem, at: usize, first: u16)
        requires inside { at < self.old.len }
        requires room { self.old.len + births-of (cases_of (sig_of (meant problem.now)) (row self.old at).ty) ≤ 512 }
        ensures { Opens (meant problem.now) self.old at first self.new }
    {
        let parent = self.rows[at];
        self.rows[at] = Unknown {
            first: Some(first),
            kids: self.len as u16,
            ..parent
        };
        for constructor in 0..problem.constructors(parent.ty) {
            let level = parent
                .level
                .saturating_add(cost(problem, parent.ty, constructor));
            self.append(problem.arguments(parent.ty, constructor), level);
        }
    }
}
