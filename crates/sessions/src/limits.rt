// What a search is passed: its limits, and memory that is lent to it.
ghost use Rattle.std.specs.Prelude.{◌≡◌, ◌≤◌, length, OnOk};
ghost use Rattle.sessions.specs.Faults.{told};
ghost use Rattle.sessions.specs.Limits.{limits_refusal, suffice};

use crate::faults::SessionFault;
use chooser::Chooser;
use judge::left::STEP_PLACES;
use replay::replay::MOST_STEPS;
use rounds::search::{Lent, Limits};

pub const MOST_DEPTH: usize = 64;

pub const MOST_ROUNDS: usize = 65_535;

pub(crate) fn check_limits(limits: Limits) -> Result<(), SessionFault>
    ensures refusal { told result ≡ limits_refusal limits.depth limits.rounds limits.steps }
    ensures few { OnOk result (limits.steps ≤ 4096) }
{
    if !matches!(limits.depth, 1..=MOST_DEPTH) {
        return Err(SessionFault::BadDepth);
    }
    if !matches!(limits.rounds, 1..=MOST_ROUNDS) || !matches!(limits.steps, 1..=MOST_STEPS) {
        return Err(SessionFault::BadLimits);
    }
    Ok(())
}

// Whether there are places for so many steps, and a byte and a literal for each variable that such a chooser can have.
pub(crate) fn has_room<C: Chooser>(steps: usize, way: &[u8], lent: &Lent<'_>) -> bool
    requires { steps ≤ 4096 }
    ensures { result ≡ suffice C.Chooser.MAX_VARIABLES steps (length lent.now.places.now) (length way.now) (length lent.now.literals.now) }
{
    let most = usize::from(C::MAX_VARIABLES);
    lent.places.len() >= STEP_PLACES * steps && way.len() >= most && lent.literals.len() >= most
}
