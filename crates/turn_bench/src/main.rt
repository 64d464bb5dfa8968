//! Counts to a number in turns, by so many threads, and prints the count.
#![tactic(auto)]

mod counter;
mod threads;

use std::process::ExitCode;
use std::{env, io};

fn main(rt: HostRuntime) -> io::Result<ExitCode> {
    let mut words = env::args(&rt)?;
    let _program = words.next();
    if let (Some(turns), Some(threads)) = (words.next(), words.next()) {
        if let (Ok(turns), Ok(threads)) = (
            turns.as_str().parse::<u32>(),
            threads.as_str().parse::<u8>(),
        ) {
            if let Some(count) = threads::count(&rt, rt.alloc(), turns, threads) {
                println!(rt; "{count}")?;
                return Ok(ExitCode::SUCCESS);
            }
        }
    }
    eprintln!(rt; "turn_bench TURNS THREADS")?;
    Ok(ExitCode::from(2))
}
