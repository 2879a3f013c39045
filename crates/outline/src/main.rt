// Reads lines of a name and bytes in hexadecimal, takes each as a problem, and prints what the problem says when it is asked.
#![tactic(auto)]

use hextext::bytes_of_small;
use problem::problem::Problem;
use problem::take::take;
use problem::view::View;
use std::alloc::AllocError;
use std::io;
use std::io::{BufRead, BufReader};
use syntax::limits::{MOST_FUNCTIONS, MOST_TYPES};

fn tell_type(rt: &HostRuntime, p: &Problem, t: u8) -> io::Result<()> {
    let least = p.least(t);
    println!(rt; "  type {t}: least depth {least}")?;
    for c in 0..p.constructors(t) {
        let need = p.need(t, c);
        let arguments = p.arguments(t, c);
        println!(rt; "    constructor {c} over {arguments:?} needs {need}")?;
    }
    Ok(())
}

// Where the next term stands: the first part of a term, or what comes after a term without parts.
fn next_place(p: &Problem, place: usize, view: View) -> usize {
    match view {
        View::Constructor { arguments, .. } | View::Call { arguments, .. } => arguments,
        View::Case { subject, .. } => subject,
        View::And { left, .. } | View::Equal { left, .. } => left,
        View::Not(inner) => inner,
        View::Variable(_) | View::Unknown(_) | View::Nothing => p.after(place),
    }
}

// The terms within the term at a place, itself first. Each stands after the one before, so there are no more than bytes.
// Kept as it is: a count of rounds; a `while` would want a measure, and `after` says nothing of a place where no term is known to stand.
fn tell_term(rt: &HostRuntime, p: &Problem, start: usize) -> io::Result<()> {
    let end = p.after(start);
    let mut place = start;
    for _ in 0..p.bytes().len() {
        if place >= end {
            break;
        }
        let view = p.view(place);
        println!(rt; "    {place}: {view}")?;
        place = next_place(p, place, view);
    }
    Ok(())
}

// Kept as it is: types, constructors, functions and goals are gone through by their numbers, here and above, since the calls of a
// problem take numbers.
fn tell(rt: &HostRuntime, line: &str) -> io::Result<()> {
    let Some((name, text)) = line.split_once(' ') else {
        return Ok(());
    };
    // A capital letter is no digit here, and is passed over.
    let bytes = bytes_of_small(rt.alloc(), text.as_bytes()).map_err(|_| AllocError)?;
    let p = take(rt.alloc(), bytes.as_slice())?;
    let size = p.bytes().len();
    let unknowns = p.unknowns();
    println!(rt; "{name}: {size} bytes, unknowns {unknowns:?}")?;
    for t in 0..p.types().min(MOST_TYPES) as u8 {
        tell_type(rt, &p, t)?;
    }
    for f in 0..p.functions().min(MOST_FUNCTIONS) as u8 {
        let params = p.params(f);
        let result = p.result(f);
        println!(rt; "  function {f}: {params:?} to {result}")?;
        tell_term(rt, &p, p.body(f))?;
    }
    for g in 0..p.goals() {
        println!(rt; "  goal {g}")?;
        tell_term(rt, &p, p.goal(g))?;
    }
    Ok(())
}

fn main(rt: HostRuntime) -> io::Result<()> {
    for line in BufReader::new(rt.alloc(), rt.stdin())?.lines(rt.alloc()) {
        tell(&rt, line?.as_str())?;
    }
    Ok(())
}
