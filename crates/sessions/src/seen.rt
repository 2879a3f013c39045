// What a session sees of its chooser: the count of its variables, and the entries left.
ghost use Rattle.std.specs.Prelude.{◌≡◌, ◌==◌, ◌&&◌};

use crate::session::Begun;
use chooser::Chooser;

// How many variables the chooser has.
pub(crate) fn variables<C: Chooser>(chooser: &C) -> u16
    ensures { result ≡ (C.Chooser.meaning chooser.now).count }
{
    C::MAX_VARIABLES - chooser.variables_left()
}

impl Begun {
    // Whether the chooser has the variables and the entries left that were last seen.
    pub(crate) fn is_last_seen<C: Chooser>(&self, chooser: &C) -> bool
        ensures { result ≡ ((C.Chooser.meaning chooser.now).count == self.now.count && (C.Chooser.meaning chooser.now).left == self.now.left) }
    {
        variables(chooser) == self.count && chooser.entries_left() == self.left
    }
}
