// Why a replay is refused.
ghost use Rattle.std.specs.Prelude.{◌≡◌, Some};
ghost use Rattle.replay.specs.declared.faults.ReplayFault.TheVariants.{BadModel};
ghost use Rattle.replay.specs.Numbers.{number_of, refusal_text};

use std::fmt;
use syntax::faults::Fault;

#[derive(Clone, Copy)]
pub enum ReplayFault {
    Steps, // 41: not 1 to 4,096
    Places, // 42: fewer than six for each step
    AnswerLength, // 53: not the number of goals
    BadModel(Fault), // 50: the reader's fault, whole
}

impl From<Fault> for ReplayFault {
    ghost from_gives = { λ e r. r ≡ BadModel e };

    fn from(fault: Fault) -> ReplayFault {
        ReplayFault::BadModel(fault)
    }
}

impl ReplayFault {
    // The number by which the refusal is reported.
    // Kept as it is: a case carries the reader's fault, and an enum with such a case has no numbers for `as`.
    pub fn number(self) -> u8
        ensures { result ≡ number_of self }
    {
        match self {
            ReplayFault::Steps => 41,
            ReplayFault::Places => 42,
            ReplayFault::AnswerLength => 53,
            ReplayFault::BadModel(_) => 50,
        }
    }
}

// The number, and after it the reader's own fault.
impl fmt::Display for ReplayFault {
    ghost output = { λ e. Some (refusal_text e) };

    fn fmt<W: fmt::Write>(&self, f: &mut fmt::Formatter<W>) -> fmt::Result {
        let number = self.number();
        match self {
            ReplayFault::BadModel(inner) => write!(f, "{number}: {inner}"),
            _ => write!(f, "{number}"),
        }
    }
}
