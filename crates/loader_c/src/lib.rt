// The finder for C: each function is one call of `boundary` or `loader`, its clauses stated again, and include/finder.h declares it.
#![tactic(auto)]

ghost use Rattle.std.specs.Prelude.{◌≡◌, ℕ, length, OnErr, Result};
ghost use Rattle.verdict.specs.Verdict.{verdict, checked};
ghost use Rattle.rows.specs.declared.store.TheConstants.{MOST_VARIABLES};
ghost use Rattle.loader.specs.declared.searching.Found.{Found as Written};
ghost use Rattle.boundary.specs.declared.faults.LoadFault.{LoadFault as Refused};
ghost use Rattle.boundary.specs.Statuses.{checked_status, Reports};
ghost use Rattle.loader.specs.Searching.{Answered};
ghost use Rattle.boundary.specs.Replaying.{Judged};
ghost use Rattle.boundary.specs.Texts.{Lined, Showed};

use boundary::answering::DepthAnswer;
use boundary::replaying::replay_model;
use boundary::status::{Status, check_bytes, report};
use boundary::text::{line_of, show_model};
use loader::request::Request;
use loader::searching::{Found, search_learning, search_plain};
use std::alloc::Global;

// Whether the bytes are a problem. Nothing is allocated.
#[unsafe(no_mangle)]
pub extern "C" fn finder_check(problem: &[u8]) -> Status
    ensures { result ≡ checked_status (checked (verdict problem.now)) }
{
    check_bytes(problem)
}

// Searches with the plain chooser.
#[unsafe(no_mangle)]
pub extern "C" fn finder_search_plain(
    heap: Global,
    problem: &[u8],
    request: &Request,
    way: &mut [u8],
    literals: &mut [u16],
    answers: &mut [DepthAnswer],
    model: &mut [u8],
    found: &mut Found,
) -> Status
    ensures { (r : Result Written Refused) × Reports r found.old found.new result × Answered MOST_VARIABLES problem.now request.now (record { way = length way.old; literals = length literals.old; answers = length answers.old; model = length model.old }) answers.old answers.new model.old model.new r }
{
    let searched = search_plain(heap, problem, request, way, literals, answers, model);
    report(searched, found)
}

// Searches with the learning chooser.
#[unsafe(no_mangle)]
pub extern "C" fn finder_search_learning(
    heap: Global,
    problem: &[u8],
    request: &Request,
    way: &mut [u8],
    literals: &mut [u16],
    answers: &mut [DepthAnswer],
    model: &mut [u8],
    found: &mut Found,
) -> Status
    ensures { (r : Result Written Refused) × Reports r found.old found.new result × Answered MOST_VARIABLES problem.now request.now (record { way = length way.old; literals = length literals.old; answers = length answers.old; model = length model.old }) answers.old answers.new model.old model.new r }
{
    let searched = search_learning(heap, problem, request, way, literals, answers, model);
    report(searched, found)
}

// Judges the goals under a model.
#[unsafe(no_mangle)]
pub extern "C" fn finder_replay(
    heap: Global,
    problem: &[u8],
    model: &[u8],
    steps: usize,
    answer: &mut [u8],
    goals: &mut usize,
) -> Status
    ensures { (r : Result ℕ Refused) × Reports r goals.old goals.new result × Judged problem.now model.now steps answer.old answer.new r × OnErr r (answer.new ≡ answer.old) }
{
    report(replay_model(heap, problem, model, steps, answer), goals)
}

// Writes the line of an answer.
#[unsafe(no_mangle)]
pub extern "C" fn finder_line(
    depth: usize,
    answer: &DepthAnswer,
    output: &mut [u8],
    written: &mut usize,
) -> Status
    ensures { (r : Result ℕ Refused) × Reports r written.old written.new result × Lined depth answer.now output.old output.new r }
{
    report(line_of(depth, answer, output), written)
}

// Writes the text of a model.
#[unsafe(no_mangle)]
pub extern "C" fn finder_show(
    heap: Global,
    problem: &[u8],
    model: &[u8],
    output: &mut [u8],
    written: &mut usize,
) -> Status
    ensures { (r : Result ℕ Refused) × Reports r written.old written.new result × Showed problem.now model.now output.old output.new r }
{
    report(show_model(heap, problem, model, output), written)
}
