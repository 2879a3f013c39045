// Looks at the types of a problem whose records are read: first for numbers that name no type, then for types without a shallow value.
ghost use Rattle.std.specs.Prelude.{◌≤◌, length};
ghost use Rattle.declarations.specs.Numbers.{Low};
ghost use Rattle.verdict.specs.ByTables.{TypesLookedAt};

use declarations::undeclared;
use depths::least::least_depths;
use syntax::faults::{Fault, Reason};
use syntax::tables::Signature;

// The unknown records start at `start`. Where there is no fault, `least` begins with each type's least depth.
pub fn check_types(sig: Signature, start: usize, least: &mut [u8]) -> Result<(), Fault>
    requires low { Low sig start }
    requires long { length sig.types.now ≤ length least.old }
    ensures { TypesLookedAt sig.entry start least.new result }
{
    if let Some(place) = undeclared(sig, start) {
        return Err(Reason::Undeclared.at(place));
    }
    match least_depths(sig, &mut least[..sig.types.len()]) {
        Some(t) => Err(Reason::NoValue.at(sig.types[t].at)),
        None => Ok(()),
    }
}
