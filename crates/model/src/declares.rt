// What the reader of values asks of a problem.
ghost use Rattle.std.specs.Prelude.{◌≡◌, ◌≤◌, length};
ghost use Rattle.syntax.specs.Typing.{constructors as constructors_of, arguments as arguments_of};
ghost use Rattle.syntax.specs.Problems.{Problem as Meaning, sig_of};
ghost use Rattle.problem.specs.Meant.{meant};

use problem::problem::Problem;

// The declarations of a problem: types and unknowns. The reader knows a problem only by them, whatever else it holds.
pub trait Declares {
    ghost declares: { Self → Meaning };

    // How many constructors a type has.
    fn constructor_count(&self, ty: u8) -> u8
        ensures { result ≡ constructors_of (sig_of (declares self.now)) ty };

    // The types of a constructor's arguments.
    fn argument_types(&self, ty: u8, constructor: u8) -> &[u8]
        ensures is { result.now ≡ arguments_of (sig_of (declares self.now)) ty constructor }
        ensures few { length result.now ≤ 6 };

    // The types of the unknowns.
    fn unknown_types(&self) -> &[u8]
        ensures is { result.now ≡ (declares self.now).unknowns }
        ensures few { length result.now ≤ 16 };
}

impl Declares for Problem {
    ghost declares = { meant };

    fn constructor_count(&self, ty: u8) -> u8 {
        self.constructors(ty)
    }

    fn argument_types(&self, ty: u8, constructor: u8) -> &[u8] {
        self.arguments(ty, constructor)
    }

    fn unknown_types(&self) -> &[u8] {
        self.unknowns()
    }
}
