// A problem, as its bytes and what is read off them once.
ghost use Rattle.std.specs.Prelude.{◌≡◌, ℕ, ◌<◌, [], length, slice_index, slice_index_or};
ghost use Rattle.syntax.specs.Least.{need_of};
ghost use Rattle.ends.specs.Ends.{ends_of};
ghost use Rattle.kept.specs.Layout.{sig_from};
ghost use Rattle.kept.specs.Filled.{Holds};

use kept::record_tables::Tables;
use syntax::limits::MOST_CONSTRUCTORS;

// The check accepts the bytes; each table holds what the problem that they are says.
// Kept as it is: what is worked out for each type and each byte stands beside them, since types and bytes are lent as slices.
#[derive(Drop)]
pub struct Problem {
    pub(crate) bytes: Vec<u8>,
    pub(crate) tables: Tables,
    pub(crate) needs: Vec<[u8; MOST_CONSTRUCTORS]>,
    pub(crate) next: Vec<u16>,
    ghost holds: { Holds bytes.items tables },
    ghost needs_long: { length needs.items ≡ length tables.types.items },
    ghost needs_held: { ((t c : ℕ) → (t < length needs.items) × (c < 16) → slice_index (slice_index_or needs.items t []) c ≡ need_of (sig_from bytes.items) t c) },
    ghost next_held: { next.items ≡ ends_of (sig_from bytes.items) bytes.items },
}
