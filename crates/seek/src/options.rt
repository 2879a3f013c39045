// What the command line asks for.

use anyhow::anyhow;
use std::env;

// A usage line for who mistakes an option.
const USAGE: &str =
    "the options are: --plain, --learning, --depth N, --rounds N, --steps N, --model FILE, --list; N is from 1 on";

// The choosers that can be named.
#[derive(Clone, Copy)]
pub enum Which {
    Plain,
    Learning,
}

#[derive(Clone, Copy)]
pub enum Task {
    Seek,
    List,
}

#[derive(Drop)]
pub struct Options {
    pub task: Task,
    pub which: Which,
    // The deepest of the depths that are searched, from 1 on.
    pub deepest: usize,
    // What each search may spend: rounds, and steps of each judging.
    pub rounds: usize,
    pub steps: usize,
    // Where the bytes of a model are kept.
    pub model: Option<String>,
    // Where the problem is; none: on standard input.
    pub file: Option<String>,
}

impl Options {
    fn new() -> Options {
        Options {
            task: Task::Seek,
            which: Which::Plain,
            deepest: 8,
            rounds: 1_000,
            steps: 512,
            model: None,
            file: None,
        }
    }

    pub fn read(rt: &HostRuntime) -> anyhow::Result<Options> {
        let mut options = Options::new();
        let mut words = env::args(rt)?.skip(1);
        while let Some(word) = words.next() {
            match word.as_str() {
                "--plain" => options.which = Which::Plain,
                "--learning" => options.which = Which::Learning,
                "--depth" => options.deepest = count(words.next())?,
                "--rounds" => options.rounds = count(words.next())?,
                "--steps" => options.steps = count(words.next())?,
                "--model" => options.model = Some(given(words.next())?),
                "--list" => options.task = Task::List,
                option if option.starts_with("-") => return Err(anyhow!("{USAGE}")),
                _ => options.file = Some(word),
            }
        }
        Ok(options)
    }
}

// The word behind an option.
fn given(word: Option<String>) -> anyhow::Result<String> {
    word.ok_or_else(|| anyhow!("{USAGE}"))
}

// The number behind an option.
fn count(word: Option<String>) -> anyhow::Result<usize> {
    match given(word)?.as_str().parse::<usize>() {
        Ok(n) if n > 0 => Ok(n),
        _ => Err(anyhow!("{USAGE}")),
    }
}
