// What a problem has.

use problem::problem::Problem;
use std::io;
use syntax::limits::MOST_TYPES;

// A type's least depth, and what each of its constructors needs.
fn list_type(rt: &HostRuntime, problem: &Problem, t: u8) -> io::Result<()> {
    let least = problem.least(t);
    print!(rt; "type {t}: least depth {least}, needs")?;
    for c in 0..problem.constructors(t) {
        let need = problem.need(t, c);
        print!(rt; " {need}")?;
    }
    println!(rt; "")
}

// Kept as it is: types and constructors are gone through by their numbers, here and above, since the calls of a problem take numbers.
pub fn list(rt: &HostRuntime, problem: &Problem) -> io::Result<()> {
    let types = problem.types();
    let functions = problem.functions();
    let unknowns = problem.unknowns().len();
    let goals = problem.goals();
    println!(rt; "types {types}, functions {functions}, unknowns {unknowns}, goals {goals}")?;
    for t in 0..types.min(MOST_TYPES) as u8 {
        list_type(rt, problem, t)?;
    }
    Ok(())
}
