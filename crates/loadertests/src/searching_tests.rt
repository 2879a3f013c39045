use crate::library::{Found as Wanted, search};
use crate::memory::Memory;
use crate::problems::{ENTRIES, REQUEST, VALVES};
use boundary::answering::DepthAnswer;
use boundary::faults::LoadFault;
use boundary::status::{Status, report};
use learning::Learning;
use loader::searching::Found;
use plain::Plain;
use problem::take::take;
use sessiontests::problems::{EMPTY, TWO};
use std::alloc::Global;
use std::process::Abort;
use std::test::Fail;

// The answers and the model that were written are the library's.
fn is_as(rt: &impl Abort, memory: &Memory, found: Result<Found, LoadFault>, wanted: &Wanted) {
    let mut told = Found {
        answers: 99,
        model: 99,
    };
    assert_eq!(rt; report(found, &mut told), Status::DONE);
    assert_eq!(rt; told.answers, wanted.answers.len());
    assert_eq!(rt; told.model, wanted.model.len());
    for (written, answer) in memory.answers.iter().zip(wanted.answers.iter()) {
        assert_eq!(rt; *written, DepthAnswer::of(*answer));
    }
    for (written, byte) in memory.model.iter().zip(wanted.model.iter()) {
        assert_eq!(rt; *written, *byte);
    }
}

fn searches(rt: &impl Abort, heap: Global, bytes: &[u8]) -> Result<(), Fail> {
    let problem = take(heap, bytes)?;
    let entries = usize::from(ENTRIES);
    let mut memory = Memory::new(heap)?;
    let wanted = search(heap, &problem, &mut Plain::new(heap, entries)?)?;
    let found = memory.plain(heap, bytes, &REQUEST);
    is_as(rt, &memory, found, &wanted);
    let wanted = search(heap, &problem, &mut Learning::new(heap, entries)?)?;
    let found = memory.learning(heap, bytes, &REQUEST);
    is_as(rt, &memory, found, &wanted);
    Ok(())
}

#[test]
fn one_unknown(rt: HostRuntime) -> Result<(), Fail> {
    searches(&rt, rt.alloc(), &TWO)
}

#[test]
fn several_unknowns(rt: HostRuntime) -> Result<(), Fail> {
    searches(&rt, rt.alloc(), &VALVES)
}

#[test]
fn no_goal(rt: HostRuntime) -> Result<(), Fail> {
    searches(&rt, rt.alloc(), &EMPTY)
}
