// A model that was read.
ghost use Rattle.std.specs.Prelude.{◌≤◌, length};

use arrayvec::ArrayVec;
use syntax::limits::MOST_UNKNOWNS;

// Model bytes, and the places of the unknowns' values in them.
#[derive(Drop)]
pub struct Model<'a, P> {
    pub problem: &'a P,
    pub bytes: &'a [u8],
    pub roots: ArrayVec<u16, MOST_UNKNOWNS>,
    ghost short: { length bytes.now ≤ 16384 },
}
