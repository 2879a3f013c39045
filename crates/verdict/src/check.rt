// The check of bytes.
ghost use Rattle.std.specs.Prelude.{◌≡◌, ◌+◌, ◌≤◌, length};
ghost use Rattle.verdict.specs.Exact.{Says, VerdictIsExact};
ghost use Rattle.verdict.specs.Verdict.{verdict, checked};

use crate::examine::examine;
use crate::workspace::{MOST_TASKS, Workspace};
use syntax::faults::Fault;
use terms::tasks::Task;

// The check, with room for N tasks. The tables have room for all that the format allows.
fn check_with<const N: usize>(bytes: &[u8]) -> Result<(), Fault>
    requires room { length bytes.now ≤ 16384 → length bytes.now + 1 ≤ N }
    requires memory { N ≤ 16385 }
    ensures exact { result ≡ checked (verdict bytes.now) }
    ensures says { Says bytes.now result }
{
    let mut tasks = [Task::BLANK; N];
    let mut work = Workspace::EMPTY;
    examine(
        bytes,
        &mut work.tables.types,
        &mut work.tables.functions,
        &mut work.tables.unknowns,
        &mut work.tables.goals,
        &mut work.least,
        &mut tasks,
    )?;
    Ok(())
}

// Accepts bytes, or names the first fault. Bytes are accepted exactly if they are the encoding of a lawful problem.
// Nothing is allocated. Small problems get by with less working memory, since clearing the most would cost more than their check.
pub fn check(bytes: &[u8]) -> Result<(), Fault>
    ensures exact { result ≡ checked (verdict bytes.now) }
    ensures says { Says bytes.now result }
    ensures decodes { VerdictIsExact }
{
    if bytes.len() < 1056 {
        check_with::<1056>(bytes)
    } else if bytes.len() < 4128 {
        check_with::<4128>(bytes)
    } else {
        check_with::<MOST_TASKS>(bytes)
    }
}
