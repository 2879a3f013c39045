// Fills the tables of a problem.
ghost use Rattle.std.specs.Prelude.{◌≡◌, ◌^◌, ◌<◌, false, length, is_ok, IfOk, MatchOption};
ghost use Rattle.syntax.specs.Tables.{declared_in};
ghost use Rattle.ends.specs.Ends.{ends_of};
ghost use Rattle.verdict.specs.Verdict.{verdict};
ghost use Rattle.kept.specs.Filled.{NeedsHeld, Holds};

use crate::record_tables::Tables;
use depths::needs::fill_needs;
use ends::ends::fill_ends;
use std::alloc::{AllocError, Global};
use syntax::limits::{MOST_BYTES, MOST_CONSTRUCTORS};
use syntax::tables::Signature;
use terms::tasks::Task;
use verdict::examine::examine;
use verdict::workspace::Workspace;

// What each constructor needs.
pub fn needs_table(
    heap: Global,
    sig: Signature,
    least: &[u8],
) -> Result<Vec<[u8; MOST_CONSTRUCTORS]>, AllocError>
    ensures { IfOk result (λ v. NeedsHeld (declared_in sig.entry) least.now v.items) }
{
    let mut needs = vec![in heap; [0u8; MOST_CONSTRUCTORS]; sig.types.len()]?;
    fill_needs(sig, least, needs.as_mut_slice());
    Ok(needs)
}

// Where each term ends.
pub fn ends_table(heap: Global, bytes: &[u8], sig: Signature) -> Result<Vec<u16>, AllocError>
    requires { length bytes.now < 2 ^ 16 }
    ensures { IfOk result (λ v. v.items ≡ ends_of (declared_in sig.entry) bytes.now) }
{
    let mut next = vec![in heap; 0u16; bytes.len()]?;
    fill_ends(bytes, sig, next.as_mut_slice());
    Ok(next)
}

// The tables of the problem that the bytes are, if they are one.
pub fn examined(heap: Global, bytes: &[u8]) -> Result<Option<Tables>, AllocError>
    ensures { IfOk result (λ o. MatchOption o (is_ok (verdict bytes.now) ≡ false) (λ t. Holds bytes.now t)) }
{
    let mut work = Workspace::EMPTY;
    let mut tasks = vec![in heap; Task::BLANK; bytes.len().min(MOST_BYTES) + 1]?;
    let Ok(counts) = examine(
        bytes,
        &mut work.tables.types,
        &mut work.tables.functions,
        &mut work.tables.unknowns,
        &mut work.tables.goals,
        &mut work.least,
        tasks.as_mut_slice(),
    ) else {
        return Ok(None);
    };
    let tables = Tables::copied(heap, &work, counts)?;
    Ok(Some(tables))
}
