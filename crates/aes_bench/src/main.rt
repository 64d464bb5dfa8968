//! Enciphers a chain of blocks, or expands a chain of keys, and prints the last block.
#![tactic(auto)]

mod chain;

use aes_block::Key;
use std::process::ExitCode;
use std::{env, io};

const KEY: [u8; 16] = [
    0x00, 0x01, 0x02, 0x03, 0x04, 0x05, 0x06, 0x07, 0x08, 0x09, 0x0a, 0x0b, 0x0c, 0x0d, 0x0e, 0x0f,
];

const BLOCK: [u8; 16] = [
    0x00, 0x11, 0x22, 0x33, 0x44, 0x55, 0x66, 0x77, 0x88, 0x99, 0xaa, 0xbb, 0xcc, 0xdd, 0xee, 0xff,
];

// The last block of the work that a word names, if it names one.
fn last_block(work: &str, count: u32) -> Option<[u8; 16]> {
    match work {
        "blocks" => Some(chain::blocks(&Key::new(&KEY)?, count, BLOCK)),
        "keys" => Some(chain::keys(KEY, count, BLOCK)),
        _ => None,
    }
}

fn main(rt: HostRuntime) -> io::Result<ExitCode> {
    let mut words = env::args(&rt)?;
    let _program = words.next();
    if let (Some(work), Some(count)) = (words.next(), words.next()) {
        if let Ok(count) = count.as_str().parse::<u32>() {
            if let Some(block) = last_block(work.as_str(), count) {
                for byte in block {
                    print!(rt; "{byte:02x}")?;
                }
                println!(rt; "")?;
                return Ok(ExitCode::SUCCESS);
            }
        }
    }
    eprintln!(rt; "aes_bench blocks N | aes_bench keys N")?;
    Ok(ExitCode::from(2))
}
