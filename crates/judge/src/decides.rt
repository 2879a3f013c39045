// What decides unknowns.
ghost use Rattle.std.specs.Prelude.{◌≡◌, ◌≤◌, ℕ, length};
ghost use Rattle.judging.specs.Judging.{Unknowns};
ghost use Rattle.judge.specs.Decisions.{numbers_of, Chooses};

use syntax::limits::MOST_ARGUMENTS;

// The numbers of an unknown's children, at most six.
// Kept as it is: an array with a count beside it, since a choice is `Copy`, as a vector of fixed room (`arrayvec`) is not.
#[derive(Clone, Copy)]
pub struct Children {
    pub count: u8,
    pub numbers: [u16; MOST_ARGUMENTS],
}

impl Children {
    // The list of these numbers.
    pub fn new(numbers: &[u16]) -> Children
        requires { length numbers.now ≤ 6 }
        ensures { numbers_of result ≡ numbers.now }
    {
        let mut list = [0; MOST_ARGUMENTS];
        list[..numbers.len()].copy_from_slice(numbers);
        Children {
            count: numbers.len() as u8,
            numbers: list,
        }
    }

    // The numbers, as a slice.
    pub fn as_slice(&self) -> &[u16]
        ensures numbers { result.now ≡ numbers_of self.now }
        ensures few { length result.now ≤ 6 }
    {
        let numbers: &[u16] = &self.numbers;
        numbers.get(..usize::from(self.count)).unwrap_or(numbers)
    }
}

// The constructor that is chosen for an unknown, and the numbers of its children.
#[derive(Clone, Copy)]
pub struct Choice {
    pub constructor: u8,
    pub children: Children,
}

// A table of unknowns, each with a number. The judge knows it only by the unknowns that it stands for.
pub trait Decides {
    ghost unknowns: { Self → Unknowns ℕ };

    // The number of an unknown of the problem.
    fn root(&self, unknown: u8) -> u16
        ensures { result ≡ (unknowns self.now).roots unknown };

    // What is chosen for an unknown that is decided.
    fn choice(&self, unknown: u16) -> Option<Choice>
        ensures { Chooses (unknowns self.now) unknown result };
}
