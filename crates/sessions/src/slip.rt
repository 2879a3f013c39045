// The slip that `put` hands out for a goal, and that `give_back` takes.
ghost use Rattle.std.specs.Prelude.{◌≡◌};

// A slip is live, and then names its goal, or it is blank. Only a blank one may be let go: a live one has to be given back.
pub struct Slip {
    pub(crate) goal: Option<u8>,
}

impl Drop for Slip {
    fn drop(self)
        requires { self.goal ≡ None }
    {
        let Slip { goal: _ } = self;
    }
}

impl Slip {
    // Uses the slip up.
    pub(crate) fn into_goal(self) -> Option<u8>
        ensures { result ≡ self.goal }
    {
        let Slip { goal } = self;
        goal
    }
}
