// What a loader wants searched, and the tests of it.
ghost use Rattle.std.specs.Prelude.{◌≡◌, OnOk};
ghost use Rattle.loader.specs.Requests.{Passed, admitted, request_admitted};

use boundary::faults::LoadFault;
use models::writing::MOST_BYTES;
use replay::replay::MOST_STEPS;
use sessions::faults::SessionFault;
use sessions::limits::{MOST_DEPTH, MOST_ROUNDS};
use verdict::check::check;

// The depths that are searched, one after the other, and what each search may spend. `entries` are the chooser's.
#[repr(C)]
#[derive(Clone, Copy)]
pub struct Request {
    pub first: usize,
    pub last: usize,
    pub rounds: usize,
    pub steps: usize,
    pub entries: u16,
}

// How much was lent.
#[derive(Clone, Copy)]
pub struct Room {
    pub way: usize,
    pub literals: usize,
    pub answers: usize,
    pub model: usize,
}

// Whether a chooser with so many variables at most is given what it needs to search.
fn check_request(request: &Request, most: usize, room: Room) -> Result<(), SessionFault>
    ensures exact { result ≡ request_admitted request.now most room }
    ensures leaves { OnOk result (Passed request.now most room) }
{
    let Request {
        first,
        last,
        rounds,
        steps,
        entries: _,
    } = *request;
    if first < 1 || last < first || last > MOST_DEPTH {
        return Err(SessionFault::BadDepth);
    }
    if !matches!(rounds, 1..=MOST_ROUNDS) || !matches!(steps, 1..=MOST_STEPS) {
        return Err(SessionFault::BadLimits);
    }
    if room.way < most || room.literals < most {
        return Err(SessionFault::SmallBuffers);
    }
    if room.answers < last - first + 1 || room.model < MOST_BYTES {
        return Err(SessionFault::SmallOutput);
    }
    Ok(())
}

// The tests of a call that searches, in their order: first the bytes are checked.
pub(crate) fn admit(
    bytes: &[u8],
    request: &Request,
    most: usize,
    room: Room,
) -> Result<(), LoadFault>
    ensures exact { result ≡ admitted bytes.now request.now most room }
    ensures leaves { OnOk result (Passed request.now most room) }
{
    check(bytes)?;
    match check_request(request, most, room) {
        Ok(()) => Ok(()),
        Err(fault) => Err(LoadFault::NotSearched(fault)),
    }
}
