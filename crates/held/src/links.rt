// Links from place to place.
ghost use Rattle.std.specs.Prelude.{◌≡◌, ◌+◌, ◌<◌, ◌^◌, Some, None};

use std::marker::Model;

// A link to a place of the memory, or to none.
// Kept as it is: one number, which is 0 for none or else one more than the place's index. With an Option<usize> in each
// place and each held term, a chain of cases took 9 to 17 % more time, and 4,000 nested terms 2,598 KiB of stack for 2,279.
#[derive(Clone, Copy)]
pub struct Link {
    above: usize,
}

impl Model for Link {
    ghost use Rattle.std.specs.Prelude.{ℕ, Option};

    ghost Value = { Option ℕ };

    ghost use Rattle.held.specs.Links.{link_view, link_inverse, link_inverse_ok};

    ghost view = { link_view };

    ghost inverse = { link_inverse };

    ghost inverse_ok = { λ a h. link_inverse_ok a };
}

impl Link {
    pub const NONE: Link = Link { above: 0 };

    // The link to the place with this index.
    pub fn to(index: usize) -> Link
        requires { index + 1 < 2 ^ 64 }
        ensures { result ≡ Some index }
    {
        Link { above: index + 1 }
    }

    // The index of the place, if there is one.
    pub fn index(self) -> Option<usize>
        ensures { result ≡ self }
    {
        if self.above == 0 {
            None
        } else {
            Some(self.above - 1)
        }
    }
}
