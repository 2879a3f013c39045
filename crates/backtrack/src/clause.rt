// A clause under values that are 0, 1 or, for a variable that is open, 2.
ghost use Rattle.std.specs.Prelude.{◌≡◌, ◌/◌, ◌<◌, true, length};
ghost use Rattle.chooser.specs.Ways.{allotted};
ghost use Rattle.backtrack.specs.Told.{Told};
ghost use Rattle.backtrack.specs.Values.{Truth};

use super::OPEN;
use rows::{is_positive, variable};

// What the values make of a clause.
#[derive(Clone, Copy)]
pub(crate) enum Status {
    // Each literal is false.
    Clash,
    // One literal is open, and the others are false.
    Forced(u16),
    // This literal is open, and none is true.
    Open(u16),
    // A literal is true.
    Met,
}

// Returns whether the literal is true, or None while its variable is open.
fn truth(values: &[u8], l: u16) -> Option<bool>
    requires { l / 2 < length values.now }
    ensures { Truth values.now l result }
{
    let value = values[variable(l)];
    if value == OPEN {
        return None;
    }
    Some((value == 1) == is_positive(l))
}

pub(crate) fn inspect(clause: &[u16], values: &[u8]) -> Status
    requires { allotted (length values.now) clause.now ≡ true }
    ensures { Told values.now clause.now result }
{
    // The first open literal, and the same again once another is open: no branch asks how many there are.
    let mut first = None;
    let mut again = None;
    for l in clause {
        match truth(values, *l) {
            Some(true) => return Status::Met,
            Some(false) => {}
            None => {
                again = first;
                first = first.or(Some(*l));
            }
        }
    }
    match (first, again) {
        (None, _) => Status::Clash,
        (Some(l), None) => Status::Forced(l),
        (Some(l), Some(_)) => Status::Open(l),
    }
}
