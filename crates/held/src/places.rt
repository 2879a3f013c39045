// Held terms as the code has them, and the places that hold them.

use crate::links::Link;

// A held term: a term, by its place in the problem's bytes, with its environment; or an unknown, by its number.
// `Missing` is the term false in any environment: what is held where no typed term comes to.
// An environment is the link to its newest binding, and to none where nothing is bound.
#[derive(Clone, Copy)]
pub enum Held {
    // Kept as it is: a case and no Option, which each reader would have to match twice: what is missing is judged, as false.
    Missing,
    Term { place: usize, env: Link },
    Unknown(u16),
}

// A place of the working memory. As an argument it is a held term that stands beside the others. As a binding it is
// the newest one of an environment: `next` is the environment before it, and `size` counts the bindings up to this one.
// Kept as it is: bindings name one another by index, since the places are memory that the caller lends.
#[derive(Clone, Copy)]
pub struct Place {
    pub held: Held,
    pub next: Link,
    pub size: usize,
}

impl Place {
    // A place with nothing in it.
    pub const BLANK: Place = Place {
        held: Held::Missing,
        next: Link::NONE,
        size: 0,
    };
}
