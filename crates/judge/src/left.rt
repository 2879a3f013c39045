// What the judge has left to work with.
ghost use Rattle.std.specs.Prelude.{◌≡◌};

use held::memory::Memory;

// The places that each step pays for: the arguments of a term.
pub const STEP_PLACES: usize = 6;

// How much is left: the steps, and how many places are in use.
#[derive(Clone, Copy)]
pub struct Left {
    pub steps: usize,
    pub top: usize,
}

// What a judging spends: the memory, and the steps that are left.
// Kept as it is: that the places suffice for the steps stands in the contracts of the judge and not in a ghost field, since
// four of them ask for six places more than the steps pay for (`HasRoom 6`), which one field could not say.
#[derive(Drop)]
pub struct Budget<'a> {
    pub memory: Memory<'a>,
    pub steps: usize,
}

impl<'a> Budget<'a> {
    pub fn new(memory: Memory<'a>, steps: usize) -> Budget<'a>
        ensures places { result.memory.places.now ≡ memory.entry.places.now }
        ensures top { result.memory.top ≡ memory.entry.top }
        ensures steps { result.steps ≡ steps }
    {
        Budget { memory, steps }
    }

    // How much of it is left.
    pub fn left(&self) -> Left
        ensures steps { result.steps ≡ self.now.steps }
        ensures top { result.top ≡ self.now.memory.top }
    {
        Left {
            steps: self.steps,
            top: self.memory.top,
        }
    }
}
