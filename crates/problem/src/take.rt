// Takes bytes as a problem: the one way to get one.
ghost use Rattle.std.specs.Prelude.{◌≡◌, false, is_ok, IfOk, MatchOption};
ghost use Rattle.syntax.specs.Problems.{encode_end};
ghost use Rattle.verdict.specs.Verdict.{verdict};
ghost use Rattle.kept.specs.Filled.{Holds};
ghost use Rattle.problem.specs.Meant.{held};
ghost use Rattle.problem.specs.Taken.{Taken};

use crate::problem::Problem;
use kept::fill::{ends_table, examined, needs_table};
use kept::record_tables::Tables;
use std::alloc::{AllocError, Global};

// The problem whose tables these are.
fn worked_out(heap: Global, bytes: &[u8], tables: Tables) -> Result<Problem, AllocError>
    requires { Holds bytes.now tables }
    ensures { IfOk result (λ p. held p ≡ bytes.now) }
{
    let sig = tables.signature();
    let needs = needs_table(heap, sig, tables.least.as_slice())?;
    let next = ends_table(heap, bytes, sig)?;
    let bytes = Vec::from_slice(heap, bytes)?;
    Ok(Problem {
        bytes,
        tables,
        needs,
        next,
    })
}

// The problem that the bytes are, if they are one.
fn accepted(heap: Global, bytes: &[u8]) -> Result<Option<Problem>, AllocError>
    ensures { IfOk result (λ o. MatchOption o (is_ok (verdict bytes.now) ≡ false) (λ p. held p ≡ bytes.now)) }
{
    let Some(tables) = examined(heap, bytes)? else {
        return Ok(None);
    };
    Ok(Some(worked_out(heap, bytes, tables)?))
}

// The problem without declarations and goals, whose bytes are the end record alone.
fn empty(heap: Global) -> Result<Problem, AllocError>
    ensures { IfOk result (λ p. held p ≡ encode_end) }
{
    match accepted(heap, &[0x45, 0x4E])? {
        Some(problem) => Ok(problem),
        None => unreachable(),
    }
}

// The problem that the bytes are; the empty problem where the check refuses them. It fails for want of memory alone.
pub fn take(heap: Global, bytes: &[u8]) -> Result<Problem, AllocError>
    ensures { IfOk result (λ p. Taken bytes.now p) }
{
    match accepted(heap, bytes)? {
        Some(problem) => Ok(problem),
        None => empty(heap),
    }
}
