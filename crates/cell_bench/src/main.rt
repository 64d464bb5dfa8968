//! Makes turns at one cell over blocks in memory, and prints how many entries its history has.
#![tactic(auto)]

mod commands;
mod turns;

use std::process::ExitCode;
use std::{env, io};

fn main(rt: HostRuntime) -> io::Result<ExitCode> {
    let mut words = env::args(&rt)?;
    let _program = words.next();
    if let (Some(turns), Some(made)) = (words.next(), words.next()) {
        if let (Ok(turns), Ok(made)) = (
            turns.as_str().parse::<u32>(),
            made.as_str().parse::<u32>(),
        ) {
            if let Some(count) = turns::count(rt.alloc(), turns as usize, made as usize) {
                println!(rt; "{count}")?;
                return Ok(ExitCode::SUCCESS);
            }
        }
    }
    eprintln!(rt; "cell_bench TURNS MADE")?;
    Ok(ExitCode::from(2))
}
