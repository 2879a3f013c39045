// How a call ended, as it crosses to C.
ghost use Rattle.std.specs.Prelude.{◌≡◌};
ghost use Rattle.verdict.specs.Verdict.{verdict, checked};
ghost use Rattle.boundary.specs.Statuses.{status_of, checked_status, Reports};

use crate::faults::LoadFault;
use verdict::check::check;

// All zero where the call was not refused.
#[repr(C)]
#[derive(Clone, Copy, PartialEq, Eq, Debug)]
pub struct Status {
    // The fault's number, the number of the fault that is inside, and the place of the byte at fault.
    pub refusal: u8,
    pub inside: u8,
    pub place: usize,
}

impl Status {
    // The status of a call that was not refused.
    pub const DONE: Status = Status {
        refusal: 0,
        inside: 0,
        place: 0,
    };

    pub fn of(fault: LoadFault) -> Status
        ensures { result ≡ status_of fault }
    {
        Status {
            refusal: fault.number(),
            inside: fault.inside(),
            place: fault.place(),
        }
    }
}

// Hands out the value of a call, or the status of its refusal.
pub fn report<T: Copy>(answer: Result<T, LoadFault>, value: &mut T) -> Status
    ensures { Reports answer value.old value.new result }
{
    match answer {
        Ok(answered) => {
            *value = answered;
            Status::DONE
        }
        Err(fault) => Status::of(fault),
    }
}

// Whether the bytes are a problem. Nothing is allocated.
pub fn check_bytes(bytes: &[u8]) -> Status
    ensures { result ≡ checked_status (checked (verdict bytes.now)) }
{
    match check(bytes) {
        Ok(()) => Status::DONE,
        Err(fault) => Status::of(LoadFault::BadProblem(fault)),
    }
}
