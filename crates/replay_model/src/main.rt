// Judges the goals of a problem under a model: `replay_model PROBLEM MODEL`, both files. Each goal has 4,096 steps.
#![tactic(auto)]

use held::places::Place;
use judge::left::STEP_PLACES;
use problem::take::take;
use replay::replay::{MOST_STEPS, replay};
use std::{env, fs, io};
use verdict::check::check;

// A byte of the answer, as a word.
// Kept as it is: `replay` answers in bytes that its caller lends, and these numbers are its documented form.
fn word(byte: u8) -> &'static str {
    match byte {
        0 => "false",
        1 => "true",
        2 => "out",
        _ => "waiting",
    }
}

fn run(rt: &HostRuntime, bytes: &[u8], model: &[u8]) -> io::Result<()> {
    if let Err(fault) = check(bytes) {
        return println!(rt; "refused {fault}");
    }
    let heap = rt.alloc();
    let problem = take(heap, bytes)?;
    let mut memory = vec![in heap; Place::BLANK; STEP_PLACES * MOST_STEPS]?;
    let mut answer = vec![in heap; 0u8; problem.goals()]?;
    if let Err(fault) = replay(
        &problem,
        model,
        MOST_STEPS,
        memory.as_mut_slice(),
        answer.as_mut_slice(),
    ) {
        return println!(rt; "refused {fault}");
    }
    for (goal, byte) in answer.as_slice().iter().enumerate() {
        let judged = word(*byte);
        println!(rt; "goal {goal} {judged}")?;
    }
    Ok(())
}

fn main(rt: HostRuntime) -> io::Result<()> {
    let mut args = env::args(&rt)?;
    let _program = args.next();
    let (Some(problem), Some(model)) = (args.next(), args.next()) else {
        return println!(rt; "usage: replay_model PROBLEM MODEL");
    };
    let bytes = fs::read(&rt, problem.as_str())?;
    let model = fs::read(&rt, model.as_str())?;
    run(&rt, bytes.as_slice(), model.as_slice())
}
