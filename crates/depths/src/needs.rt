// What constructors need, by a table of least depths.
ghost use Rattle.std.specs.Prelude.{◌≡◌, ℕ, ◌+◌, ◌<◌, ◌≤◌, length, map, slice_index};
ghost use Rattle.syntax.specs.Tables.{listed, cases_in, declared_in};
ghost use Rattle.syntax.specs.Least.{greatest, need_of};
ghost use Rattle.depths.specs.Needs.{depth_at, need_by, need_in, Easiest, Filled};
ghost use Rattle.depths.specs.Least.{Leasts};

use std::array;
use syntax::limits::{MOST_CONSTRUCTORS, NO_VALUE};
use syntax::tables::{Datatype, Signature, TypeList};

// Kept as it is: `NO_VALUE` is a number and no Option, since the table is memory that the caller lends, and the format's promises say 9.

// Kept as it is: `sig` and `least` go side by side, since the one is read and the other filled, and where both are read two
// references are as short as a struct of them.

// The least depth of a type, as far as it is known.
fn depth_at(least: &[u8], t: u8) -> u8
    ensures { result ≡ depth_at least.now t }
{
    least
        .get(usize::from(t))
        .map_or(NO_VALUE, |depth| (*depth).min(NO_VALUE))
}

// The greatest least depth among some types.
fn deepest_of(least: &[u8], types: &[u8]) -> u8
    ensures is { result ≡ greatest (depth_at least.now) types.now }
    ensures low { result ≤ 9 }
{
    types.iter().map(|t| depth_at(least, *t)).fold(0, u8::max)
}

// What a constructor with arguments of these types needs.
fn need_over(least: &[u8], arguments: &[u8]) -> u8
    ensures is { result ≡ 1 + greatest (depth_at least.now) arguments.now }
    ensures low { result ≤ 10 }
{
    1 + deepest_of(least, arguments)
}

// The least need of a type's constructors.
pub(crate) fn easiest(least: &[u8], datatype: &Datatype) -> u8
    ensures { Easiest (need_in least.now (cases_in datatype.now)) (length (cases_in datatype.now)) result }
{
    datatype
        .cases()
        .iter()
        .map(|case| need_over(least, case.types()))
        .fold(NO_VALUE, u8::min)
}

// What the constructor `c` of the type `t` needs, right where the table of least depths is.
// Kept as it is: no crate calls it; it answers for one constructor without the table that `fill_needs` writes.
pub fn need(sig: Signature, least: &[u8], t: u8, c: u8) -> u8
    ensures by { result ≡ need_by (declared_in sig.entry) least.now t c }
    ensures is { Leasts (declared_in sig.entry) least.now → result ≡ need_of (declared_in sig.entry) t c }
{
    need_over(least, sig.arguments(t, c))
}

// What the constructor at an index needs; past the last one, what a constant needs.
fn need_at(least: &[u8], cases: &[TypeList], c: usize) -> u8
    ensures { result ≡ need_in least.now (map listed cases.now) c }
{
    match cases.get(c) {
        Some(case) => need_over(least, case.types()),
        None => need_over(least, &[]),
    }
}

// The row of a type in the table of needs.
fn needs_of(least: &[u8], cases: &[TypeList]) -> [u8; MOST_CONSTRUCTORS]
    ensures { (c : ℕ) → c < 16 → slice_index result c ≡ need_in least.now (map listed cases.now) c }
{
    array::from_fn(|c| need_at(least, cases, c))
}

// Writes what each constructor needs into the row of its type.
pub fn fill_needs(sig: Signature, least: &[u8], needs: &mut [[u8; MOST_CONSTRUCTORS]])
    ensures by { Filled (need_by (declared_in sig.entry) least.now) needs.new }
    ensures is { Leasts (declared_in sig.entry) least.now → Filled (need_of (declared_in sig.entry)) needs.new }
{
    // Kept as it is: a row is promised for each number, also for one that names no type, which a zip with the types would pass over.
    for (t, row) in needs.iter_mut().enumerate() {
        *row = needs_of(least, sig.cases(t));
    }
}
