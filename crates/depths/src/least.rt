// The least depth of each type's values.
ghost use Rattle.std.specs.Prelude.{◌≡◌, ℕ, ◌+◌, length};
ghost use Rattle.syntax.specs.Tables.{declared_in};
ghost use Rattle.depths.specs.Least.{Leasts, FirstWithout, FirstUnknown, Known};

use crate::needs::easiest;
use syntax::limits::NO_VALUE;
use syntax::tables::Signature;

// Accounts for the values that are deeper by one.
fn round(sig: Signature, least: &mut [u8])
    requires { length least.old ≡ length sig.types.now }
    ensures { (k : ℕ) → Known (declared_in sig.entry) least.old k 0 → Known (declared_in sig.entry) least.new (k + 1) 0 }
{
    // Kept as it is: each entry is worked out from the whole table, which cannot be read while its entries are lent one by one.
    for (t, datatype) in sig.types.iter().enumerate() {
        least[t] = easiest(least, datatype);
    }
}

// The first type of which no value is known.
fn first_unknown(least: &[u8]) -> Option<usize>
    ensures { FirstUnknown least.now result }
{
    least.iter().position(|depth| *depth >= NO_VALUE)
}

// Writes the least depth of each type, or 9 where no value is at most 8 deep; the first type without such a value.
pub fn least_depths(sig: Signature, least: &mut [u8]) -> Option<usize>
    requires { length least.old ≡ length sig.types.now }
    ensures each { Leasts (declared_in sig.entry) least.new }
    ensures first { FirstWithout (declared_in sig.entry) result }
{
    least.fill(NO_VALUE);
    for _depth in 1..NO_VALUE {
        round(sig, least);
    }
    first_unknown(least)
}
