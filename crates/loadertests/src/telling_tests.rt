use crate::library::{Found, search};
use crate::problems::{ENTRIES, REQUEST, VALVES};
use boundary::answering::DepthAnswer;
use boundary::replaying::replay_model;
use boundary::status::{Status, check_bytes, report};
use boundary::text::{line_of, show_model};
use held::places::Place;
use judge::left::STEP_PLACES;
use plain::Plain;
use problem::problem::Problem;
use problem::take::take;
use replay::replay::replay;
use sessiontests::problems::TWO;
use std::alloc::Global;
use std::process::Abort;
use std::test::Fail;
use telling::line::line;
use telling::show::show;
use verdict::check::check;

fn found(heap: Global, problem: &Problem) -> Result<Found, Fail> {
    search(heap, problem, &mut Plain::new(heap, usize::from(ENTRIES))?)
}

fn replays(rt: &impl Abort, heap: Global, bytes: &[u8]) -> Result<(), Fail> {
    let problem = take(heap, bytes)?;
    let model = found(heap, &problem)?.model;
    let steps = REQUEST.steps;
    let mut places = vec![in heap; Place::BLANK; STEP_PLACES * steps]?;
    let mut wanted = vec![in heap; 7u8; problem.goals()]?;
    assert!(rt; replay(&problem, &model, steps, &mut places, &mut wanted).is_ok());
    let mut answer = [7u8; 33];
    let mut goals = 99;
    let told = replay_model(heap, bytes, &model, steps, &mut answer);
    assert_eq!(rt; report(told, &mut goals), Status::DONE);
    assert_eq!(rt; goals, wanted.len());
    for (byte, want) in answer.iter().zip(wanted.iter()) {
        assert_eq!(rt; *byte, *want);
    }
    // What is behind the goals' bytes stays.
    assert_eq!(rt; answer[32], 7);
    Ok(())
}

#[test]
fn replays_as_the_library(rt: HostRuntime) -> Result<(), Fail> {
    replays(&rt, rt.alloc(), &TWO)?;
    replays(&rt, rt.alloc(), &VALVES)
}

fn shows(rt: &impl Abort, heap: Global, bytes: &[u8]) -> Result<(), Fail> {
    let problem = take(heap, bytes)?;
    let model = found(heap, &problem)?.model;
    let mut output = [7u8; 256];
    let mut text = [7u8; 256];
    let length = show(&problem, &model, &mut output)?;
    let mut shown = 99;
    let told = show_model(heap, bytes, &model, &mut text);
    assert_eq!(rt; report(told, &mut shown), Status::DONE);
    assert_eq!(rt; shown, length);
    assert_eq!(rt; text, output);
    Ok(())
}

#[test]
fn shows_as_the_library(rt: HostRuntime) -> Result<(), Fail> {
    shows(&rt, rt.alloc(), &TWO)?;
    shows(&rt, rt.alloc(), &VALVES)
}

// The line of each answer.
fn lines(rt: &impl Abort, heap: Global, bytes: &[u8]) -> Result<(), Fail> {
    let problem = take(heap, bytes)?;
    for (depth, answer) in (1..65).zip(found(heap, &problem)?.answers.iter()) {
        let mut output = [7u8; 128];
        let mut text = [7u8; 128];
        let length = line(depth, answer, &mut output)?;
        let mut told = 99;
        let lined = line_of(depth, &DepthAnswer::of(*answer), &mut text);
        assert_eq!(rt; report(lined, &mut told), Status::DONE);
        assert_eq!(rt; told, length);
        assert_eq!(rt; text, output);
    }
    Ok(())
}

#[test]
fn tells_as_the_library(rt: HostRuntime) -> Result<(), Fail> {
    lines(&rt, rt.alloc(), &TWO)?;
    lines(&rt, rt.alloc(), &VALVES)
}

#[test]
fn checks_as_the_library(rt: HostRuntime) {
    assert_eq!(rt; check_bytes(&TWO), Status::DONE);
    for bytes in [&TWO[..27], &TWO[1..], &VALVES[..100], &[]] {
        let Err(fault) = check(bytes) else {
            panic!(rt; "accepted");
        };
        let wanted = Status {
            refusal: fault.reason.number(),
            inside: 0,
            place: fault.place,
        };
        assert_eq!(rt; check_bytes(bytes), wanted);
    }
}
