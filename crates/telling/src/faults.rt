// Why nothing is written.
ghost use Rattle.std.specs.Prelude.{◌≡◌, Some};
ghost use Rattle.telling.specs.declared.faults.TellFault.TheVariants.{BadModel};
ghost use Rattle.telling.specs.Refusals.{number_of, refusal_text};

use std::error::Error;
use std::fmt;
use syntax::faults::Fault;

#[derive(Clone, Copy, PartialEq, Eq, Debug)]
pub enum TellFault {
    BadModel(Fault), // 50: the reader's fault, whole
    SmallOutput, // 46: the text is longer than the output
}

impl From<Fault> for TellFault {
    ghost from_gives = { λ e r. r ≡ BadModel e };

    fn from(fault: Fault) -> TellFault {
        TellFault::BadModel(fault)
    }
}

impl TellFault {
    // The number by which the refusal is reported.
    pub fn number(self) -> u8
        ensures { result ≡ number_of self }
    {
        match self {
            TellFault::BadModel(_) => 50,
            TellFault::SmallOutput => 46,
        }
    }
}

// The number, and after it the reader's own fault.
impl fmt::Display for TellFault {
    ghost output = { λ f. Some (refusal_text f) };

    fn fmt<W: fmt::Write>(&self, f: &mut fmt::Formatter<W>) -> fmt::Result {
        let number = self.number();
        match self {
            TellFault::BadModel(inner) => write!(f, "{number}: {inner}"),
            TellFault::SmallOutput => write!(f, "{number}"),
        }
    }
}

impl Error for TellFault {}
