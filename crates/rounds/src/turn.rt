// How a round ends.
use answers::answer::Outcome;

#[derive(Clone, Copy)]
pub enum Turn {
    // The search ends with it.
    Closed(Outcome),
    Recorded,
    Opened,
}
