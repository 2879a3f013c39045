// Checks the terms of a problem whose records are read: the bodies in order, and then the goals.
ghost use Rattle.std.specs.Prelude.{◌≡◌, ◌+◌, ◌≤◌, length};
ghost use Rattle.syntax.specs.Tables.{declared_in};
ghost use Rattle.verdict.specs.ByTables.{fault_of, terms_by, FitFunctions, FitGoals};
ghost use Rattle.tables.specs.Tabled.{part_in, Inside};

use syntax::faults::Fault;
use syntax::tables::{Signature, Span};
use terms::check::Checker;
use terms::tasks::Task;

// A part of the bytes.
fn part(bytes: &[u8], span: Span) -> &[u8]
    requires { Inside bytes.now span }
    ensures { result.now ≡ part_in bytes.now span }
{
    &bytes[span.start..span.start + span.len]
}

// Checks all the terms. `tasks` is working memory.
pub fn check_terms(
    bytes: &[u8],
    sig: Signature,
    goals: &[Span],
    tasks: &mut [Task],
) -> Result<(), Fault>
    requires functions { FitFunctions bytes.now sig.functions.now }
    requires goals { FitGoals bytes.now goals.now }
    requires room { length bytes.now + 1 ≤ length tasks.old }
    ensures { result ≡ fault_of (terms_by (declared_in sig.entry) bytes.now sig.entry.functions.now goals.now) }
{
    let mut checker = Checker::new(sig);
    for function in sig.functions {
        let body = part(bytes, function.body);
        let variables = function.params.types();
        checker.check_term(tasks, body, function.body.start, variables, function.result)?;
    }
    for goal in goals {
        let term = part(bytes, *goal);
        checker.check_term(tasks, term, goal.start, &[], 0)?;
    }
    Ok(())
}
