// A chooser holds variables that are 0 or 1 and clauses over them, and says whether some way to give the variables values is left.
// Literal 2i says that variable i is 1, literal 2i + 1 that it is 0.
#![tactic(auto)]

ghost use Rattle.std.specs.Prelude.{◌≡◌, ℕ, Some};
ghost use Rattle.chooser.specs.Faults.{fault_number, fault_text, make_fault_text};
ghost use Rattle.chooser.specs.Meaning.{Meaning, Same, Lawful};
ghost use Rattle.chooser.specs.Steps.{NewVariable, Add, Ask};
ghost use Rattle.chooser.specs.Claims.{EitherValue, ToldApart};
ghost use Rattle.chooser.specs.declared.MakeFault.TheVariants.{NoMemory};

use std::alloc::AllocError;
use std::error::Error;
use std::fmt;

// Why a call is refused, with the number by which that is reported. A refused call changes nothing.
#[derive(Clone, Copy, PartialEq, Eq, Debug)]
pub enum Fault {
    // No variable is left.
    NoVariable = 61,
    // A literal of a variable that was not allotted.
    Unallotted = 62,
    // Too few entries are left for the clause.
    NoEntries = 63,
    // The answer's length is not the count of variables.
    WrongLength = 64,
}

#[derive(Clone, Copy, PartialEq, Eq, Debug)]
pub enum Answer {
    Yes,
    No,
}

// Why a chooser cannot be made. Want of memory is a fault of making a chooser and of nothing else.
#[derive(Clone, Copy, PartialEq, Eq, Debug)]
pub enum MakeFault {
    // More than 65,535 entries are wanted.
    TooManyEntries,
    NoMemory,
}

impl Fault {
    // The refusal's number.
    pub fn number(self) -> u8
        ensures { result ≡ fault_number self }
    {
        self as u8
    }
}

impl fmt::Display for Fault {
    ghost output = { λ e. Some (fault_text e) };

    fn fmt<W: fmt::Write>(&self, f: &mut fmt::Formatter<W>) -> fmt::Result {
        f.write_str(match self {
            Fault::NoVariable => "the formula has more variables than the chooser",
            Fault::Unallotted => "the formula has a literal of no variable",
            Fault::NoEntries => "the formula has more entries than the chooser",
            Fault::WrongLength => "the answer has not a byte for each variable",
        })
    }
}

impl Error for Fault {}

impl fmt::Display for MakeFault {
    ghost output = { λ e. Some (make_fault_text e) };

    fn fmt<W: fmt::Write>(&self, f: &mut fmt::Formatter<W>) -> fmt::Result {
        f.write_str(match self {
            MakeFault::TooManyEntries => "a chooser of too many entries",
            MakeFault::NoMemory => "no memory",
        })
    }
}

impl Error for MakeFault {}

impl From<AllocError> for MakeFault {
    ghost from_gives = { λ _ e. e ≡ NoMemory };

    fn from(_error: AllocError) -> MakeFault {
        MakeFault::NoMemory
    }
}

// Literals are numbers here, and not of a type of their own: a clause is lent as it stands in the memory of the caller, and rows keep
// numbers and lengths side by side. `rows` has the functions that make and read them.
pub trait Chooser {
    // The greatest number of variables.
    const MAX_VARIABLES: u16;

    // The same number, by which clauses name it.
    ghost MAX_VARIABLES: { ℕ };

    ghost meaning: { Self → Meaning };

    ghost laws: { Lawful meaning MAX_VARIABLES };

    // Returns how many variables can still be allotted: the greatest number less the count.
    fn variables_left(&self) -> u16
        ensures { result ≡ (meaning self.now).room };

    // Returns how many entries are left. A clause of L literals spends at most L + 1.
    fn entries_left(&self) -> usize
        ensures { result ≡ (meaning self.now).left };

    // Allots a variable and returns its number. Either value of it is allowed. Refused with 61 when none is left.
    fn new_variable(&mut self) -> Result<u16, Fault>
        ensures { NewVariable (meaning self.old) (meaning self.new) result };

    // Keeps exactly the allowed ways that meet the clause. Refused with 62 for a literal of no allotted variable,
    // then with 63 when fewer than L + 1 entries are left.
    fn add(&mut self, clause: &[u16]) -> Result<(), Fault>
        ensures { Add (meaning self.old) (meaning self.new) clause.now result };

    // Answers Yes and writes an allowed way that meets every assumption, or answers No when there is none.
    // Refused with 62 for a literal of no allotted variable, then with 64 when `answer` has not one byte for each variable.
    fn ask(&mut self, assumptions: &[u16], answer: &mut [u8]) -> Result<Answer, Fault>
        ensures same { Same (meaning self.old) (meaning self.new) }
        ensures answered { Ask (meaning self.old) assumptions.now answer.old answer.new result };
}

// Shows two consequences of the relations that the calls promise: after `new_variable` each allowed way is allowed with
// either value of the new variable, and no two faults have one number. It is a function so that src/ states the claim, in a contract;
// it does nothing.
pub fn relations_stand()
    ensures either { EitherValue }
    ensures apart { ToldApart }
{}
