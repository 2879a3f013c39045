// Runs scripts on a chooser and says how long its calls took. A script has a line for each call: `v N` allots N variables,
// `a L L ..` adds a clause, and `q L L ..` asks under assumptions; a literal is a variable counted from 1, with a minus for 0.
// Usage: chooser_bench plain|learning FILE ..
#![tactic(auto)]

use arrayvec::ArrayVec;
use chooser::{Answer, Chooser, Fault};
use learning::Learning;
use plain::Plain;
use rows::{MOST_ENTRIES, MOST_VARIABLES};
use std::time::Instant;
use std::{env, fmt, fs};

// The choosers that can be named.
#[derive(Clone, Copy)]
enum Kind {
    Plain,
    Learning,
}

// What a script's calls came to.
#[derive(Default, Drop)]
struct Score {
    yes: u32,
    no: u32,
    refused: u32,
}

impl Score {
    fn answered(&mut self, answer: Result<Answer, Fault>) {
        match answer {
            Ok(Answer::Yes) => self.yes = self.yes.saturating_add(1),
            Ok(Answer::No) => self.no = self.no.saturating_add(1),
            Err(_) => self.refused = self.refused.saturating_add(1),
        }
    }

    fn took(&mut self, taken: Result<(), Fault>) {
        if taken.is_err() {
            self.refused = self.refused.saturating_add(1);
        }
    }
}

impl fmt::Display for Score {
    fn fmt<W: fmt::Write>(&self, f: &mut fmt::Formatter<W>) -> fmt::Result {
        write!(
            f,
            "yes {} no {} refused {}",
            self.yes, self.no, self.refused
        )
    }
}

// The calls that a line can make.
#[derive(Clone, Copy)]
enum Call {
    Allot,
    Add,
    Ask,
}

impl Call {
    fn named(letter: u8) -> Option<Call> {
        match letter {
            b'v' => Some(Call::Allot),
            b'a' => Some(Call::Add),
            b'q' => Some(Call::Ask),
            _ => None,
        }
    }
}

// What is read of a script's line.
#[derive(Drop)]
struct Line {
    // By the last byte that writes no number; a line without one makes the call of the line before.
    call: Option<Call>,
    // Those behind the call's byte; more than fit in are left out.
    literals: ArrayVec<u16, MOST_VARIABLES>,
    // The last number that was read: so many variables `v` allots.
    number: u32,
}

impl Line {
    fn read(&mut self, line: &[u8]) {
        self.literals.clear();
        for word in line.split(|b| *b == b' ') {
            self.read_word(word);
        }
    }

    fn read_word(&mut self, word: &[u8]) {
        let mut minus = false;
        let mut number = None;
        for &b in word {
            match b {
                b'0'..=b'9' => {
                    let digits = number.unwrap_or(0u32).min(100000);
                    number = Some(10 * digits + u32::from(b - b'0'));
                }
                b'-' => {
                    minus = true;
                    number = number.and(Some(0));
                    self.number = 0;
                }
                letter => {
                    self.call = Call::named(letter);
                    self.literals.clear();
                }
            }
        }
        if let Some(number) = number {
            self.number = number;
            if let Some(literal) = literal(number, minus) {
                let _ = self.literals.try_push(literal);
            }
        }
    }
}

// The literal of a variable counted from 1, if there is such a variable.
fn literal(number: u32, minus: bool) -> Option<u16> {
    let variable = number.checked_sub(1)?;
    if (variable as usize) < MOST_VARIABLES {
        Some(2 * variable as u16 + u16::from(minus))
    } else {
        None
    }
}

// Kept as it is: decide's `allot` asks that so many are left; a script that wants more is refused at the first that is not.
fn allot<C: Chooser>(chooser: &mut C, variables: u32) -> Result<(), Fault> {
    for _ in 0..variables {
        chooser.new_variable()?;
    }
    Ok(())
}

fn ask<C: Chooser>(
    chooser: &mut C,
    assumptions: &[u16],
    values: &mut [u8],
) -> Result<Answer, Fault> {
    let left = chooser.variables_left();
    let count = C::MAX_VARIABLES.saturating_sub(left) as usize;
    let count = count.min(values.len());
    chooser.ask(assumptions, &mut values[..count])
}

// Makes each line's call. What stands behind the last line's end is no line.
fn play<C: Chooser>(chooser: &mut C, script: &[u8]) -> Score {
    let mut values = [0u8; MOST_VARIABLES];
    let mut score = Score::default();
    let mut line = Line {
        call: None,
        literals: ArrayVec::new(),
        number: 0,
    };
    for text in script.split_inclusive(|b| *b == b'\n') {
        let Some((b'\n', text)) = text.split_last() else {
            break;
        };
        line.read(text);
        match line.call {
            Some(Call::Allot) => score.took(allot(chooser, line.number)),
            Some(Call::Add) => score.took(chooser.add(&line.literals)),
            Some(Call::Ask) => score.answered(ask(chooser, &line.literals, &mut values)),
            None => {}
        }
    }
    score
}

fn report<C: Chooser>(
    rt: &HostRuntime,
    chooser: &mut C,
    path: &str,
    script: &[u8],
) -> anyhow::Result<()> {
    let start = Instant::now(rt)?;
    let score = play(chooser, script);
    let took = start.elapsed(rt)?.as_micros();
    eprintln!(rt; "{took} {path}")?;
    println!(rt; "{path} {score}")?;
    Ok(())
}

fn run(rt: &HostRuntime) -> anyhow::Result<()> {
    let mut kind = Kind::Learning;
    for word in env::args(rt)?.skip(1) {
        match word.as_str() {
            "plain" => kind = Kind::Plain,
            "learning" => kind = Kind::Learning,
            path => {
                let script = fs::read(rt, path)?;
                match kind {
                    Kind::Plain => {
                        let mut chooser = Plain::new(rt.alloc(), MOST_ENTRIES)?;
                        report(rt, &mut chooser, path, &script)?;
                    }
                    Kind::Learning => {
                        let mut chooser = Learning::new(rt.alloc(), MOST_ENTRIES)?;
                        report(rt, &mut chooser, path, &script)?;
                    }
                }
            }
        }
    }
    Ok(())
}

fn main(rt: HostRuntime) -> anyhow::Result<()> {
    run(&rt)
}
