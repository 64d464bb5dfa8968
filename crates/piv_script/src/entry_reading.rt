// The entry of a line's words.
ghost use Rattle.std.specs.Prelude.{◌≡◌, Some};
ghost use Rattle.piv_model.specs.Entries.{entry_of};
ghost use Rattle.piv_model.specs.Written.{command_length};
ghost use Rattle.line_words.specs.Words.{Gives, texts};
ghost use Rattle.piv_script.specs.Outcomes.{Pushes};
ghost use Rattle.piv_script.specs.EntryReading.{opened_of, lone_connection as lone_connection_of, call_of, bad_of, reset_of, cut_of, up_of, note_of, entry_of_kind, entry_of_words};

use crate::entry_words::{
    act_with, lone_act, read_block, read_connection, read_interface, read_refusal, read_took,
};
use line_words::{LineFault, read_body, read_mode, read_status, read_upper_byte};
use piv_model::{Command, Entry, History};
use std::alloc::Global;

// How many bytes the command of an entry has.
fn command_size(entry: Entry<'_>) -> usize
    ensures { result ≡ command_length (entry_of entry.entry) }
{
    match entry {
        Entry::Call {
            c: _,
            command,
            sw: _,
            block: _,
        } => command.body.len(),
        Entry::Cut { running } => match running {
            Some((_, command)) => command.body.len(),
            None => 0,
        },
        _ => 0,
    }
}

// Adds an entry.
fn add(h: &mut History, entry: Entry<'_>) -> Result<(), LineFault>
    ensures { Pushes result (Some (entry_of entry.entry)) h.old.past h.new.past }
{
    match h.grow(1, command_size(entry)) {
        Ok(()) => {
            h.push(entry);
            Ok(())
        }
        Err(_) => Err(LineFault::NoMemory),
    }
}

fn push_opened(h: &mut History, rest: &[&str]) -> Result<(), LineFault>
    ensures { Pushes result (opened_of (texts rest.now)) h.old.past h.new.past }
{
    match rest {
        [c, interface, mode] => add(
            h,
            Entry::Opened {
                c: read_connection(c)?,
                interface: read_interface(interface)?,
                shared: read_mode(mode)?,
            },
        ),
        _ => Err(LineFault::Malformed),
    }
}

fn push_cut(alloc: Global, h: &mut History, rest: &[&str]) -> Result<(), LineFault>
    ensures { Pushes result (cut_of (texts rest.now)) h.old.past h.new.past }
{
    match rest {
        [] => add(h, Entry::Cut { running: None }),
        [c, ins, p1, p2, body] => {
            let c = read_connection(c)?;
            let ins = read_upper_byte(alloc, ins)?;
            let p1 = read_upper_byte(alloc, p1)?;
            let p2 = read_upper_byte(alloc, p2)?;
            let body = read_body(alloc, body)?;
            let command = Command {
                ins,
                p1,
                p2,
                body: body.as_slice(),
            };
            add(
                h,
                Entry::Cut {
                    running: Some((c, command)),
                },
            )
        }
        _ => Err(LineFault::Malformed),
    }
}

fn push_note(h: &mut History, rest: &[&str]) -> Result<(), LineFault>
    ensures { Pushes result (note_of (texts rest.now)) h.old.past h.new.past }
{
    match rest {
        [act, answer] => add(
            h,
            Entry::Note {
                act: lone_act(act)?,
                answer: read_refusal(answer)?,
            },
        ),
        [act, subject, answer] => add(
            h,
            Entry::Note {
                act: act_with(act, subject)?,
                answer: read_refusal(answer)?,
            },
        ),
        _ => Err(LineFault::Malformed),
    }
}

fn lone_connection(rest: &[&str]) -> Result<u32, LineFault>
    ensures { Gives result (lone_connection_of (texts rest.now)) }
{
    match rest {
        [c] => read_connection(c),
        _ => Err(LineFault::Malformed),
    }
}

fn push_call(alloc: Global, h: &mut History, rest: &[&str]) -> Result<(), LineFault>
    ensures { Pushes result (call_of (texts rest.now)) h.old.past h.new.past }
{
    match rest {
        [c, ins, p1, p2, body, sw, block] => {
            let c = read_connection(c)?;
            let ins = read_upper_byte(alloc, ins)?;
            let p1 = read_upper_byte(alloc, p1)?;
            let p2 = read_upper_byte(alloc, p2)?;
            let body = read_body(alloc, body)?;
            let sw = read_status(alloc, sw)?;
            let block = read_block(alloc, block)?;
            let command = Command {
                ins,
                p1,
                p2,
                body: body.as_slice(),
            };
            add(
                h,
                Entry::Call {
                    c,
                    command,
                    sw,
                    block,
                },
            )
        }
        _ => Err(LineFault::Malformed),
    }
}

fn push_bad(alloc: Global, h: &mut History, rest: &[&str]) -> Result<(), LineFault>
    ensures { Pushes result (bad_of (texts rest.now)) h.old.past h.new.past }
{
    match rest {
        [c, sw] => add(
            h,
            Entry::Bad {
                c: read_connection(c)?,
                sw: read_status(alloc, sw)?,
            },
        ),
        _ => Err(LineFault::Malformed),
    }
}

fn push_reset(h: &mut History, rest: &[&str]) -> Result<(), LineFault>
    ensures { Pushes result (reset_of (texts rest.now)) h.old.past h.new.past }
{
    match rest {
        [interface] => add(
            h,
            Entry::Reset {
                interface: read_interface(interface)?,
            },
        ),
        _ => Err(LineFault::Malformed),
    }
}

fn push_up(h: &mut History, rest: &[&str]) -> Result<(), LineFault>
    ensures { Pushes result (up_of (texts rest.now)) h.old.past h.new.past }
{
    match rest {
        [took] => add(
            h,
            Entry::Up {
                took: read_took(took)?,
            },
        ),
        _ => Err(LineFault::Malformed),
    }
}

fn push_kind(alloc: Global, h: &mut History, kind: &str, rest: &[&str]) -> Result<(), LineFault>
    ensures { Pushes result (entry_of_kind kind.now (texts rest.now)) h.old.past h.new.past }
{
    match kind {
        "opened" => push_opened(h, rest),
        "closed" => add(
            h,
            Entry::Closed {
                c: lone_connection(rest)?,
            },
        ),
        "call" => push_call(alloc, h, rest),
        "part" => add(
            h,
            Entry::Part {
                c: lone_connection(rest)?,
            },
        ),
        "rest" => add(
            h,
            Entry::Rest {
                c: lone_connection(rest)?,
            },
        ),
        "bad" => push_bad(alloc, h, rest),
        "reset" => push_reset(h, rest),
        "cut" => push_cut(alloc, h, rest),
        "up" => push_up(h, rest),
        "note" => push_note(h, rest),
        _ => Err(LineFault::Malformed),
    }
}

pub(crate) fn push_words(alloc: Global, h: &mut History, words: &[&str]) -> Result<(), LineFault>
    ensures { Pushes result (entry_of_words (texts words.now)) h.old.past h.new.past }
{
    match words {
        [kind, rest @ ..] => push_kind(alloc, h, kind, rest),
        [] => Err(LineFault::Malformed),
    }
}
