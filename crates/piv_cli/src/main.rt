//! `piv`: a PIV card in software, over standard input and output.
#![tactic(auto)]

mod apdu;
mod devices;
mod hexadecimal;
mod hint;
mod input;
mod laws;
mod lines;
#[cfg(test)]
mod long_tests;
#[cfg(test)]
mod loss_tests;
mod make;
mod output;
mod program;
mod scene;
#[cfg(test)]
mod scene_tests;
#[cfg(test)]
mod session_tests;
mod status;
#[cfg(test)]
mod tests;
mod words;

use crate::devices::blank_devices;
use crate::program::top;
use crate::status::Status;
use crate::words::Words;
use piv_ports::{StdSink, StdSource};
use std::io::{BufWriter, Eprint, ErrorKind};
use std::process::ExitCode;
use std::{env, io};

fn main(rt: HostRuntime) -> ExitCode {
    let alloc = rt.alloc();
    let arguments = match env::args(&rt) {
        Ok(arguments) => arguments,
        Err(error) => return ended(&rt, without_words(&error)),
    };
    let mut words = Words::new(alloc);
    for word in arguments.skip(1) {
        if words.push(word.as_str()).is_err() {
            return ended(&rt, Status::NoMemory);
        }
    }
    let Ok(mut devices) = blank_devices(alloc) else {
        return ended(&rt, Status::NoMemory);
    };
    let Ok(writer) = BufWriter::new(alloc, io::writer(&rt)) else {
        return ended(&rt, Status::NoMemory);
    };
    let mut source = StdSource::new(rt.reader());
    let mut sink = StdSink::new(writer);
    let status = top(&rt, alloc, &words, &mut source, &mut sink, &mut devices);
    ended(&rt, status)
}

// What it means that the arguments can't be had: a word that is no text is no command.
fn without_words(error: &io::Error) -> Status {
    match error.kind() {
        ErrorKind::OutOfMemory => Status::NoMemory,
        _ => Status::Usage,
    }
}

// Says how the program ended on standard error. That it can't be said changes nothing.
fn ended(rt: &impl Eprint, status: Status) -> ExitCode {
    if status != Status::Done {
        let _ = eprintln!(rt; "piv: {}", status.name());
    }
    if let Some(hint) = status.hint() {
        let _ = eprintln!(rt; "piv: {hint}");
    }
    ExitCode::from(status.number())
}
