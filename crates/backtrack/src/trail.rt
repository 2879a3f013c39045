// The trail: the literals that were decided or that follow, in their order.
ghost use Rattle.std.specs.Prelude.{◌≡◌};

// A literal that was put on the trail.
#[derive(Clone, Copy)]
pub(crate) enum Step {
    // It was decided.
    Decided(u16),
    // It follows from the steps before it.
    Follows(u16),
}

impl Step {
    ghost use Rattle.backtrack.specs.Trail.{lit_of};

    pub(crate) fn literal(self) -> u16
        ensures { result ≡ lit_of self }
    {
        match self {
            Step::Decided(l) => l,
            Step::Follows(l) => l,
        }
    }
}
