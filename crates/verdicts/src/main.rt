// Reads lines of a name and bytes in hexadecimal, and prints the verdict on the bytes of each.
#![tactic(auto)]

use hextext::bytes_of;
use std::alloc::AllocError;
use std::io;
use std::io::{BufRead, BufReader};
use verdict::check::check;

fn tell(rt: &HostRuntime, line: &str) -> io::Result<()> {
    let Some((name, text)) = line.split_once(' ') else {
        return Ok(());
    };
    let bytes = bytes_of(rt.alloc(), text.as_bytes()).map_err(|_| AllocError)?;
    match check(bytes.as_slice()) {
        Ok(()) => println!(rt; "{name}: accepted"),
        Err(fault) => {
            let layer = fault.layer;
            println!(rt; "{name}: refused {fault} in {layer}")
        }
    }
}

fn main(rt: HostRuntime) -> io::Result<()> {
    for line in BufReader::new(rt.alloc(), rt.stdin())?.lines(rt.alloc()) {
        let line = line?;
        tell(&rt, line.as_str())?;
    }
    Ok(())
}
