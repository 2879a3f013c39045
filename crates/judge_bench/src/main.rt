// Judges the first goal of a problem without unknowns, from a file: `judge_bench PROBLEM TIMES`. It prints how many steps that takes
// and, with TIMES, how many steps a second it judges.
#![tactic(auto)]

use held::explanation::Explanation;
use held::memory::Memory;
use held::places::Place;
use judge::decides::Decides;
use judge::judge::Judge;
use judge::left::{Budget, STEP_PLACES};
use judge::verdicts::Judgement;
use model::deciding::read_model;
use problem::take::take;
use replay::replay::MOST_STEPS;
use std::time::Instant;
use std::{env, fs, io};

// What the first goal is judged to be, and the steps that were left; none where there is no room for all steps.
fn once<D: Decides>(judge: &Judge<'_, D>, places: &mut [Place]) -> Option<(Judgement, usize)> {
    if places.len() < STEP_PLACES * MOST_STEPS {
        return None;
    }
    // Without a goal no term stands where one is judged, and judging is out after a step.
    if judge.problem.goals() == 0 {
        return Some((Judgement::Out, MOST_STEPS - 1));
    }
    let mut budget = Budget::new(Memory::new(places), MOST_STEPS);
    let mut because = Explanation::nothing();
    let judged = judge.judge_within(&mut budget, &mut because, 0);
    Some((judged, budget.left().steps))
}

fn measure<D: Decides>(
    rt: &HostRuntime,
    judge: &Judge<'_, D>,
    places: &mut [Place],
    times: Option<u32>,
) -> io::Result<()> {
    let Some((judged, left)) = once(judge, places) else {
        return println!(rt; "no room, 0 steps");
    };
    let steps = MOST_STEPS.saturating_sub(left);
    let Some(times) = times else {
        return println!(rt; "{judged}, {steps} steps");
    };
    let start = Instant::now(rt)?;
    let mut all: u128 = 0;
    for _ in 0..times {
        if let Some((_, left)) = once(judge, places) {
            all = all.saturating_add(MOST_STEPS.saturating_sub(left) as u128);
        }
    }
    let micros = start.elapsed(rt)?.as_micros();
    if micros == 0 {
        return println!(rt; "{judged}, {steps} steps, too quick to tell");
    }
    let rate = all.saturating_mul(1000000) / micros;
    println!(rt; "{judged}, {steps} steps, {rate} steps a second")
}

fn main(rt: HostRuntime) -> io::Result<()> {
    let mut args = env::args(&rt)?;
    let _program = args.next();
    let Some(path) = args.next() else {
        return println!(rt; "usage: judge_bench PROBLEM TIMES");
    };
    let times = args
        .next()
        .map(|text| text.as_str().parse::<u32>().unwrap_or(1))
        .filter(|times| *times > 0);
    let heap = rt.alloc();
    let bytes = fs::read(&rt, path.as_str())?;
    let problem = take(heap, bytes.as_slice())?;
    let mut places = vec![in heap; Place::BLANK; STEP_PLACES * MOST_STEPS]?;
    match read_model(&problem, &[]) {
        Ok(model) => {
            let judge = Judge {
                problem: &problem,
                decider: &model,
            };
            measure(&rt, &judge, places.as_mut_slice(), times)
        }
        Err(_) => println!(rt; "the problem has unknowns"),
    }
}
