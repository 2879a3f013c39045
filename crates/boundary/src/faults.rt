// Why a loader's call is refused.
ghost use Rattle.std.specs.Prelude.{◌≡◌};
ghost use Rattle.boundary.specs.declared.faults.LoadFault.TheVariants.{BadProblem, NotReplayed, NotTold, NoMemory};
ghost use Rattle.boundary.specs.Faults.{number_of, inside_of, place_of};

use chooser::MakeFault;
use replay::faults::ReplayFault;
use sessions::faults::SessionFault;
use std::alloc::AllocError;
use syntax::faults::Fault;
use telling::faults::TellFault;

// A refused call leaves what it was lent for its answer as it was.
#[derive(Clone, Copy)]
pub enum LoadFault {
    // The bytes are no problem.
    BadProblem(Fault),
    NotSearched(SessionFault),
    NotReplayed(ReplayFault),
    NotTold(TellFault),
    // What should be an answer of a search is none.
    NoAnswer,
    NoMemory,
}

impl LoadFault {
    // The number by which the fault is reported.
    pub fn number(self) -> u8
        ensures { result ≡ number_of self }
    {
        match self {
            LoadFault::BadProblem(fault) => fault.reason.number(),
            LoadFault::NotSearched(fault) => fault.number(),
            LoadFault::NotReplayed(fault) => fault.number(),
            LoadFault::NotTold(fault) => fault.number(),
            LoadFault::NoAnswer => 70,
            LoadFault::NoMemory => 71,
        }
    }

    // The number of the fault that is inside; 0 where none is.
    pub fn inside(self) -> u8
        ensures { result ≡ inside_of self }
    {
        match self {
            LoadFault::NotReplayed(ReplayFault::BadModel(fault))
            | LoadFault::NotTold(TellFault::BadModel(fault)) => fault.reason.number(),
            LoadFault::NotSearched(SessionFault::TooFewVariables(fault)) => fault.number(),
            _ => 0,
        }
    }

    // The place of the byte at fault; 0 where none is.
    pub fn place(self) -> usize
        ensures { result ≡ place_of self }
    {
        match self {
            LoadFault::BadProblem(fault)
            | LoadFault::NotReplayed(ReplayFault::BadModel(fault))
            | LoadFault::NotTold(TellFault::BadModel(fault)) => fault.place,
            _ => 0,
        }
    }
}

impl From<Fault> for LoadFault {
    ghost from_gives = { λ fault e. e ≡ BadProblem fault };

    fn from(fault: Fault) -> LoadFault {
        LoadFault::BadProblem(fault)
    }
}

impl From<ReplayFault> for LoadFault {
    ghost from_gives = { λ fault e. e ≡ NotReplayed fault };

    fn from(fault: ReplayFault) -> LoadFault {
        LoadFault::NotReplayed(fault)
    }
}

impl From<TellFault> for LoadFault {
    ghost from_gives = { λ fault e. e ≡ NotTold fault };

    fn from(fault: TellFault) -> LoadFault {
        LoadFault::NotTold(fault)
    }
}

impl From<AllocError> for LoadFault {
    ghost from_gives = { λ _ e. e ≡ NoMemory };

    fn from(_error: AllocError) -> LoadFault {
        LoadFault::NoMemory
    }
}

impl From<MakeFault> for LoadFault {
    ghost from_gives = { λ _ e. e ≡ NoMemory };

    // A request names no more entries than a chooser can have, so only memory can be wanting.
    fn from(_fault: MakeFault) -> LoadFault {
        LoadFault::NoMemory
    }
}
