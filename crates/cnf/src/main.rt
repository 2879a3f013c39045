// Reads a formula in the DIMACS form from the file that is named, or from the input, and answers as solvers in this field do.
// Usage: cnf [--plain | --learning] [FILE]
#![tactic(auto)]

use anyhow::anyhow;
use chooser::{Answer, Chooser};
use decide::decide;
use dimacs::{Formula, read, true_literal};
use learning::Learning;
use plain::Plain;
use rows::MOST_ENTRIES;
use std::io::Read;
use std::{env, fs, io};

// How many literals a line of the answer has: with five digits and a minus each it has at most 74 characters.
const LINE: u16 = 10;

// The choosers that can be named.
// Kept as it is: chooser_bench has such an enum with other words; what they share is one line for each chooser.
#[derive(Clone, Copy)]
enum Which {
    Plain,
    Learning,
}

// Says the literal of each variable that is true.
fn say_values(rt: &HostRuntime, variables: u16, values: &[u8]) -> io::Result<()> {
    if variables == 0 {
        return println!(rt; "v 0");
    }
    print!(rt; "v")?;
    for (variable, value) in (0..variables).zip(values) {
        if variable > 0 && variable % LINE == 0 {
            print!(rt; "\nv")?;
        }
        print!(rt; " {}", true_literal(variable, *value))?;
    }
    println!(rt; " 0")
}

fn answer<C: Chooser>(rt: &HostRuntime, chooser: &mut C, formula: &Formula) -> anyhow::Result<()> {
    let variables = formula.variables;
    let mut values = vec![in rt.alloc(); 0u8; variables as usize]?;
    match decide(chooser, variables, &formula.row, &mut values)? {
        Answer::Yes => {
            println!(rt; "s SATISFIABLE")?;
            say_values(rt, variables, &values)?;
        }
        Answer::No => println!(rt; "s UNSATISFIABLE")?,
    }
    Ok(())
}

fn ask(rt: &HostRuntime, which: Which, formula: &Formula) -> anyhow::Result<()> {
    match which {
        Which::Plain => answer(rt, &mut Plain::new(rt.alloc(), MOST_ENTRIES)?, formula),
        Which::Learning => answer(rt, &mut Learning::new(rt.alloc(), MOST_ENTRIES)?, formula),
    }
}

fn read_input(rt: &HostRuntime) -> io::Result<Vec<u8>> {
    let mut bytes = Vec::new(rt.alloc());
    rt.stdin().read_to_end(&mut bytes)?;
    Ok(bytes)
}

fn run(rt: &HostRuntime) -> anyhow::Result<()> {
    let mut which = Which::Learning;
    let mut file = None;
    for word in env::args(rt)?.skip(1) {
        match word.as_str() {
            "--plain" => which = Which::Plain,
            "--learning" => which = Which::Learning,
            option if option.starts_with("-") => {
                return Err(anyhow!("the options are: --plain, --learning"));
            }
            path => file = Some(fs::read(rt, path)?),
        }
    }
    let text = match file {
        Some(text) => text,
        None => read_input(rt)?,
    };
    let formula = read(rt.alloc(), &text)?;
    ask(rt, which, &formula)
}

fn main(rt: HostRuntime) -> anyhow::Result<()> {
    run(&rt)
}
