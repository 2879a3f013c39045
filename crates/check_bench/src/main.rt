// Checks problems of 1, 4 and 16 KiB, as often as its argument says, and prints how many bytes a second that is.
// With no argument it only says which of them are accepted.
#![tactic(auto)]

use std::alloc::{AllocError, Global};
use std::time::Instant;
use std::{env, io};
use verdict::check::check;

const SIZES: [u16; 3] = [1024, 4096, 16384];

// A problem of just so many bytes. Its one goal is an `and` of equations between naturals, to the right, with a tail of `not`s.
fn problem_of(heap: Global, size: u16) -> Result<Vec<u8>, AllocError> {
    let mut bytes = Vec::new(heap);
    bytes.extend_from_slice(&[0x44, 0x54, 2, 0, 1, 1, 0x55, 0x4B, 1])?;
    let term = size.saturating_sub(15);
    bytes.extend_from_slice(&[0x47, 0x4C])?;
    bytes.extend_from_slice(&term.to_be_bytes())?;
    for _ in 0..term.saturating_sub(3) / 11 {
        bytes.extend_from_slice(&[5, 7, 1, 1, 0, 2, 1, 1, 2, 1, 0])?;
    }
    bytes.resize_with(usize::from(size).saturating_sub(5), || 6)?;
    bytes.extend_from_slice(&[2, 0, 1, 0x45, 0x4E])?;
    Ok(bytes)
}

// How many of so many checks accept the bytes.
fn repeat(bytes: &[u8], times: u32) -> usize {
    (0..times).filter(|_| check(bytes).is_ok()).count()
}

fn measure(rt: &HostRuntime, size: u16, times: u32) -> io::Result<()> {
    let bytes = problem_of(rt.alloc(), size)?;
    let start = Instant::now(rt)?;
    let accepted = repeat(bytes.as_slice(), times);
    let micros = start.elapsed(rt)?.as_micros();
    let checked = (bytes.len() as u128)
        .saturating_mul(accepted as u128)
        .saturating_mul(1000000);
    if micros == 0 {
        return println!(rt; "{size} bytes, accepted {accepted} times");
    }
    let rate = checked / micros;
    println!(rt; "{size} bytes, accepted {accepted} times, {rate} bytes a second")
}

fn tell(rt: &HostRuntime, size: u16) -> io::Result<()> {
    let bytes = problem_of(rt.alloc(), size)?;
    let accepted = check(bytes.as_slice()).is_ok();
    let length = bytes.len();
    println!(rt; "{length} bytes, accepted {accepted}")
}

fn main(rt: HostRuntime) -> io::Result<()> {
    let mut args = env::args(&rt)?;
    let _program = args.next();
    let times = args
        .next()
        .map(|text| text.as_str().parse::<u32>().unwrap_or(1))
        .filter(|times| *times > 0);
    for size in SIZES {
        match times {
            Some(times) => measure(&rt, size, times)?,
            None => tell(&rt, size)?,
        }
    }
    Ok(())
}
