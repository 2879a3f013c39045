// Examines bytes layer by layer: records, then types, then terms. Each layer hands its fault on by `?`.
ghost use Rattle.std.specs.Prelude.{◌+◌, ◌≤◌, length};
ghost use Rattle.verdict.specs.Examined.{Examined};

use crate::checked_terms::check_terms;
use crate::types::check_types;
use syntax::faults::Fault;
use syntax::tables::{Callable, Datatype, Signature, Span};
use tables::filling::{Counts, read_records};
use terms::tasks::Task;

// The tables are filled with what the records declare, `least` with each type's least depth; `tasks` is working memory.
pub fn examine(
    bytes: &[u8],
    types: &mut [Datatype],
    functions: &mut [Callable],
    unknowns: &mut [u8],
    goals: &mut [Span],
    least: &mut [u8],
    tasks: &mut [Task],
) -> Result<Counts, Fault>
    requires types { 32 ≤ length types.old }
    requires functions { 64 ≤ length functions.old }
    requires unknowns { 16 ≤ length unknowns.old }
    requires goals { 32 ≤ length goals.old }
    requires least { 32 ≤ length least.old }
    requires room { length bytes.now ≤ 16384 → length bytes.now + 1 ≤ length tasks.old }
    ensures { Examined bytes.now types.new functions.new unknowns.new goals.new least.new result }
{
    let counts = read_records(bytes, types, functions, unknowns, goals)?;
    let sig = Signature {
        types: &types[..counts.types],
        functions: &functions[..counts.functions],
        unknowns: &unknowns[..counts.unknowns],
    };
    check_types(sig, counts.start, least)?;
    check_terms(bytes, sig, &goals[..counts.goals], tasks)?;
    Ok(counts)
}
