ghost use Rattle.std.specs.Prelude.{◌≡◌, true, false, ◌≢◌};
ghost use Rattle.trail.specs.Values.{making};

use rows::is_positive;

// The value of a variable.
// Kept as it is: three cases with names, where an Option<bool> would have two of them in one layer and the third in another.
#[derive(Clone, Copy, PartialEq, Eq, Debug)]
pub enum Value {
    False,
    True,
    Open,
}

// Why a literal stands on the trail: it was decided, it is known true or follows by a clause that was not kept, or it follows by
// a clause of the pool.
#[derive(Clone, Copy, PartialEq, Eq, Debug)]
pub enum Reason {
    Decision,
    Known,
    Clause(u32),
}

// A literal of the trail. Its level is how many decisions were made up to it.
#[derive(Clone, Copy, PartialEq, Eq, Debug)]
pub struct Step {
    pub literal: u16,
    pub level: u16,
    pub reason: Reason,
}

impl Step {
    pub fn is_decision(&self) -> bool
        ensures yes { result ≡ true → self.now.reason ≡ Reason.Decision }
        ensures no { result ≡ false → self.now.reason ≢ Reason.Decision }
    {
        matches!(self.reason, Reason::Decision)
    }
}

// Returns the value of its variable that makes the literal true.
pub(crate) fn making(l: u16) -> Value
    ensures { result ≡ making l }
{
    if is_positive(l) {
        Value::True
    } else {
        Value::False
    }
}
