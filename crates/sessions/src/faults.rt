// Why a session refuses a call.
ghost use Rattle.std.specs.Prelude.{◌≡◌, Some};
ghost use Rattle.sessions.specs.Faults.{number_of, fault_text};
ghost use Rattle.sessions.specs.declared.faults.SessionFault.TheVariants.{TooFewVariables, SmallOutput};

use chooser::Fault;
use models::writing::Short;
use std::error::Error;
use std::fmt;

// A refused call changes nothing. `number` has the number by which each is reported.
#[derive(Clone, Copy, PartialEq, Eq, Debug)]
pub enum SessionFault {
    // The chooser has variables, or allows no way.
    NotNew,
    // The chooser has fewer variables left than the problem has goals; its own fault is inside.
    TooFewVariables(Fault),
    // The problem has no such goal.
    NoSuchGoal,
    // The goal is in force.
    InForce,
    // The slip's goal is not in force, or the slip is blank.
    NotInForce,
    // The depth is not from 1 to 64.
    BadDepth,
    // The rounds are not from 1 to 65,535, or the steps not from 1 to 4,096.
    BadLimits,
    // The working memory has fewer than 6 places for each step, or a buffer is shorter than the chooser's greatest number of variables.
    SmallBuffers,
    // The session has not begun, or the chooser's variables or entries left differ from those last seen.
    NotAsSeen,
    // No model is at hand.
    NoModel,
    // The output is too short for the model.
    SmallOutput,
}

impl SessionFault {
    // The number by which the fault is reported.
    pub fn number(self) -> u8
        ensures { result ≡ number_of self }
    {
        match self {
            SessionFault::NotNew => 20,
            SessionFault::TooFewVariables(_) => 21,
            SessionFault::NoSuchGoal => 30,
            SessionFault::InForce => 31,
            SessionFault::NotInForce => 32,
            SessionFault::BadDepth => 40,
            SessionFault::BadLimits => 41,
            SessionFault::SmallBuffers => 42,
            SessionFault::NotAsSeen => 43,
            SessionFault::NoModel => 45,
            SessionFault::SmallOutput => 46,
        }
    }
}

// The number, and behind it the number of a fault that is inside.
impl fmt::Display for SessionFault {
    ghost output = { λ f. Some (fault_text f) };

    fn fmt<W: fmt::Write>(&self, f: &mut fmt::Formatter<W>) -> fmt::Result {
        match self {
            SessionFault::TooFewVariables(fault) => {
                write!(f, "{}: {}", self.number(), fault.number())
            }
            _ => write!(f, "{}", self.number()),
        }
    }
}

impl Error for SessionFault {}

impl From<Fault> for SessionFault {
    ghost from_gives = { λ fault e. e ≡ TooFewVariables fault };

    fn from(fault: Fault) -> SessionFault {
        SessionFault::TooFewVariables(fault)
    }
}

impl From<Short> for SessionFault {
    ghost from_gives = { λ _ e. e ≡ SmallOutput };

    fn from(_short: Short) -> SessionFault {
        SessionFault::SmallOutput
    }
}
