use crate::memory::{BLANK, Memory};
use crate::problems::REQUEST;
use boundary::answering::DepthAnswer;
use boundary::replaying::replay_model;
use boundary::status::{Status, check_bytes, report};
use boundary::text::{line_of, show_model};
use loader::request::Request;
use loader::searching::Found;
use models::writing::MOST_BYTES;
use sessiontests::problems::TWO;
use std::alloc::Global;
use std::process::Abort;
use std::test::Fail;

// The bytes of no model: a wrong mark at the first.
const NO_MODEL: [u8; 2] = [1, 2];

// A status without a place and without a fault inside.
fn refusal(number: u8) -> Status {
    Status {
        refusal: number,
        inside: 0,
        place: 0,
    }
}

// A request that is accepted, with another range of depths.
fn depths(first: usize, last: usize) -> Request {
    Request {
        first,
        last,
        ..REQUEST
    }
}

// A request that is accepted, with other limits.
fn limits(rounds: usize, steps: usize) -> Request {
    Request {
        rounds,
        steps,
        ..REQUEST
    }
}

// Both choosers' calls are refused so, and nothing is changed.
fn is_refused(
    rt: &impl Abort,
    heap: Global,
    memory: &mut Memory,
    bytes: &[u8],
    request: &Request,
    wanted: Status,
) {
    let mut found = Found {
        answers: 99,
        model: 98,
    };
    let told = memory.plain(heap, bytes, request);
    assert_eq!(rt; report(told, &mut found), wanted);
    let told = memory.learning(heap, bytes, request);
    assert_eq!(rt; report(told, &mut found), wanted);
    assert_eq!(rt; (found.answers, found.model), (99, 98));
    for answer in memory.answers.iter() {
        assert_eq!(rt; *answer, BLANK);
    }
    for byte in memory.model.iter() {
        assert_eq!(rt; *byte, 0);
    }
}

#[test]
fn depths_and_limits(rt: HostRuntime) -> Result<(), Fail> {
    let heap = rt.alloc();
    let mut memory = Memory::new(heap)?;
    for (request, number) in [
        (depths(0, 8), 40),
        (depths(9, 8), 40),
        (depths(1, 65), 40),
        (limits(0, 512), 41),
        (limits(65_536, 512), 41),
        (limits(1_000, 0), 41),
        (limits(1_000, 4_097), 41),
        (depths(1, 9), 46),
    ] {
        is_refused(&rt, heap, &mut memory, &TWO, &request, refusal(number));
    }
    Ok(())
}

// The bytes are tested first, then the buffers, then the room.
#[test]
fn bytes_and_room(rt: HostRuntime) -> Result<(), Fail> {
    let heap = rt.alloc();
    let mut memory = Memory::new(heap)?;
    memory.model.truncate(MOST_BYTES - 1);
    is_refused(&rt, heap, &mut memory, &TWO, &REQUEST, refusal(46));
    memory.literals.truncate(4_095);
    is_refused(&rt, heap, &mut memory, &TWO, &REQUEST, refusal(42));
    let no_problem = &TWO[..27];
    let wanted = check_bytes(no_problem);
    is_refused(&rt, heap, &mut memory, no_problem, &REQUEST, wanted);
    Ok(())
}

#[test]
fn a_byte_too_few(rt: HostRuntime) -> Result<(), Fail> {
    let heap = rt.alloc();
    let mut memory = Memory::new(heap)?;
    memory.way.truncate(4_095);
    is_refused(&rt, heap, &mut memory, &TWO, &REQUEST, refusal(42));
    Ok(())
}

#[test]
fn replays(rt: HostRuntime) {
    let heap = rt.alloc();
    let mut goals = 99;
    let mut answer = [7u8; 1];
    let bad_model = Status {
        refusal: 50,
        inside: 2,
        place: 0,
    };
    let told = replay_model(heap, &TWO, &NO_MODEL, 9, &mut answer);
    assert_eq!(rt; report(told, &mut goals), bad_model);
    for steps in [0, 4_097] {
        let told = replay_model(heap, &TWO, &[], steps, &mut answer);
        assert_eq!(rt; report(told, &mut goals), refusal(41));
    }
    let told = replay_model(heap, &TWO, &[], 9, &mut []);
    assert_eq!(rt; report(told, &mut goals), refusal(53));
    assert_eq!(rt; (goals, answer[0]), (99, 7));
}

#[test]
fn texts(rt: HostRuntime) {
    let heap = rt.alloc();
    let mut length = 99;
    let mut output = [7u8; 1];
    let bad_model = Status {
        refusal: 50,
        inside: 2,
        place: 0,
    };
    let told = show_model(heap, &TWO, &NO_MODEL, &mut output);
    assert_eq!(rt; report(told, &mut length), bad_model);
    let told = line_of(1, &BLANK, &mut output);
    assert_eq!(rt; report(told, &mut length), refusal(70));
    let none = DepthAnswer {
        outcome: 2,
        ..BLANK
    };
    let told = line_of(1, &none, &mut output);
    assert_eq!(rt; report(told, &mut length), refusal(46));
    // NONE names no goal.
    let named = DepthAnswer { goal: 1, ..none };
    let told = line_of(1, &named, &mut output);
    assert_eq!(rt; report(told, &mut length), refusal(70));
    assert_eq!(rt; (length, output[0]), (99, 7));
}
