// Searches a problem, which it reads from the file that is named or from standard input, at one depth after the other.
// Usage: seek [OPTIONS] [FILE]; src/options.rt has the options.
#![tactic(auto)]

mod listing;
mod options;
mod searching;

use learning::Learning;
use listing::list;
use options::{Options, Task, Which};
use plain::Plain;
use problem::problem::Problem;
use problem::take::take;
use searching::Seeker;
use std::io::Read;
use std::{fs, io};
use verdict::check::check;

// The entries of the chooser.
const ENTRIES: usize = 32_768;

fn read_problem(rt: &HostRuntime, options: &Options) -> io::Result<Vec<u8>> {
    if let Some(path) = &options.file {
        return fs::read(rt, path.as_str());
    }
    let mut bytes = Vec::new(rt.alloc());
    rt.stdin().read_to_end(&mut bytes)?;
    Ok(bytes)
}

fn seek(rt: &HostRuntime, problem: &Problem, options: &Options) -> anyhow::Result<()> {
    let seeker = Seeker {
        rt,
        problem,
        options,
    };
    match options.which {
        Which::Plain => seeker.seek(&mut Plain::new(rt.alloc(), ENTRIES)?),
        Which::Learning => seeker.seek(&mut Learning::new(rt.alloc(), ENTRIES)?),
    }
}

fn main(rt: HostRuntime) -> anyhow::Result<()> {
    let options = Options::read(&rt)?;
    let bytes = read_problem(&rt, &options)?;
    if let Err(fault) = check(&bytes) {
        println!(rt; "refused {fault}")?;
        return Ok(());
    }
    let problem = take(rt.alloc(), &bytes)?;
    match options.task {
        Task::List => Ok(list(&rt, &problem)?),
        Task::Seek => seek(&rt, &problem, &options),
    }
}
