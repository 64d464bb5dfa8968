// Entries as a history stores them: the data of their commands stand in one buffer.
ghost use Rattle.std.specs.Prelude.{◌≡◌, ◌≤◌, ◌+◌, ◌++◌, length, vec_len, vec_capacity};
ghost use Rattle.piv_model.specs.Commands.{command_of};
ghost use Rattle.piv_model.specs.Entries.{entry_of};
ghost use Rattle.piv_model.specs.Written.{command_length, command_bytes, command_in, entry_in, IsWithin};

use crate::command::Command;
use crate::history::{ActKind, Entry, Refusal};
use crate::kinds::{Interface, Took};

// A command whose data stand in a history's buffer.
#[derive(Clone, Copy, Debug)]
pub(crate) struct StoredCommand {
    pub(crate) ins: u8,
    pub(crate) p1: u8,
    pub(crate) p2: u8,
    pub(crate) from: usize,
    pub(crate) size: usize,
}

// An entry whose command's data stand in a history's buffer.
#[derive(Clone, Copy, Debug)]
pub(crate) enum StoredEntry {
    Opened {
        c: u32,
        interface: Interface,
        shared: bool,
    },
    Closed {
        c: u32,
    },
    Call {
        c: u32,
        span: StoredCommand,
        sw: u16,
        block: Option<[u8; 16]>,
    },
    Part {
        c: u32,
    },
    Rest {
        c: u32,
    },
    Bad {
        c: u32,
        sw: u16,
    },
    Reset {
        interface: Interface,
    },
    Cut {
        running: Option<(u32, StoredCommand)>,
    },
    Up {
        took: Took,
    },
    Note {
        act: ActKind,
        answer: Refusal,
    },
}

// The command whose data stand in the buffer.
fn command_at(bytes: &[u8], span: StoredCommand) -> Command<'_>
    requires { span.from + span.size ≤ length bytes.now }
    ensures { command_of result ≡ command_in bytes.now span }
{
    Command {
        ins: span.ins,
        p1: span.p1,
        p2: span.p2,
        body: &bytes[span.from..span.from + span.size],
    }
}

// The entry of a row.
pub(crate) fn entry_at(bytes: &[u8], row: StoredEntry) -> Entry<'_>
    requires { IsWithin (length bytes.now) row }
    ensures { entry_of result ≡ entry_in bytes.now row }
{
    match row {
        StoredEntry::Opened {
            c,
            interface,
            shared,
        } => Entry::Opened {
            c,
            interface,
            shared,
        },
        StoredEntry::Closed { c } => Entry::Closed { c },
        StoredEntry::Call { c, span, sw, block } => Entry::Call {
            c,
            command: command_at(bytes, span),
            sw,
            block,
        },
        StoredEntry::Part { c } => Entry::Part { c },
        StoredEntry::Rest { c } => Entry::Rest { c },
        StoredEntry::Bad { c, sw } => Entry::Bad { c, sw },
        StoredEntry::Reset { interface } => Entry::Reset { interface },
        StoredEntry::Cut { running: None } => Entry::Cut { running: None },
        StoredEntry::Cut {
            running: Some((c, span)),
        } => Entry::Cut {
            running: Some((c, command_at(bytes, span))),
        },
        StoredEntry::Up { took } => Entry::Up { took },
        StoredEntry::Note { act, answer } => Entry::Note { act, answer },
    }
}

// The command's data at the end of the buffer, which has room for them.
fn stored_command(bytes: &mut Vec<u8>, command: Command<'_>) -> StoredCommand
    requires { vec_len bytes.old + length command.body.now ≤ vec_capacity bytes.old }
    ensures items { bytes.new.items ≡ bytes.old.items ++ command.entry.body.now }
    ensures len { vec_len bytes.new ≡ vec_len bytes.old + length command.entry.body.now }
    ensures within { result.from + result.size ≤ length bytes.new.items }
    ensures span { command_in bytes.new.items result ≡ command_of command.entry }
    ensures capacity { vec_capacity bytes.old ≤ vec_capacity bytes.new }
{
    let from = bytes.len();
    bytes.extend_from_slice(command.body).unwrap();
    StoredCommand {
        ins: command.ins,
        p1: command.p1,
        p2: command.p2,
        from,
        size: command.body.len(),
    }
}

// The row of an entry, whose command's data come to the end of the buffer.
pub(crate) fn stored_entry(bytes: &mut Vec<u8>, entry: Entry<'_>) -> StoredEntry
    requires { vec_len bytes.old + command_length (entry_of entry) ≤ vec_capacity bytes.old }
    ensures items { bytes.new.items ≡ bytes.old.items ++ command_bytes (entry_of entry.entry) }
    ensures len { vec_len bytes.new ≡ vec_len bytes.old + command_length (entry_of entry.entry) }
    ensures within { IsWithin (length bytes.new.items) result }
    ensures row { entry_in bytes.new.items result ≡ entry_of entry.entry }
    ensures capacity { vec_capacity bytes.old ≤ vec_capacity bytes.new }
{
    match entry {
        Entry::Opened {
            c,
            interface,
            shared,
        } => StoredEntry::Opened {
            c,
            interface,
            shared,
        },
        Entry::Closed { c } => StoredEntry::Closed { c },
        Entry::Call {
            c,
            command,
            sw,
            block,
        } => StoredEntry::Call {
            c,
            span: stored_command(bytes, command),
            sw,
            block,
        },
        Entry::Part { c } => StoredEntry::Part { c },
        Entry::Rest { c } => StoredEntry::Rest { c },
        Entry::Bad { c, sw } => StoredEntry::Bad { c, sw },
        Entry::Reset { interface } => StoredEntry::Reset { interface },
        Entry::Cut { running: None } => StoredEntry::Cut { running: None },
        Entry::Cut {
            running: Some((c, command)),
        } => StoredEntry::Cut {
            running: Some((c, stored_command(bytes, command))),
        },
        Entry::Up { took } => StoredEntry::Up { took },
        Entry::Note { act, answer } => StoredEntry::Note { act, answer },
    }
}
