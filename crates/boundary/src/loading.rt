// Bytes as a problem.
ghost use Rattle.boundary.specs.Loading.{Loaded};

use crate::faults::LoadFault;
use problem::problem::Problem;
use problem::take::take;
use std::alloc::Global;
use verdict::check::check;

// The problem that the bytes are. First bytes are refused that are none.
pub fn load(heap: Global, bytes: &[u8]) -> Result<Problem, LoadFault>
    ensures { Loaded bytes.now result }
{
    check(bytes)?;
    Ok(take(heap, bytes)?)
}
