// A card's history: one entry for each thing that happened on it.
ghost use Rattle.std.specs.Prelude.{◌≡◌, ◌<◌, [], length, Some, OnOk, IfOk};
ghost use Rattle.piv_model.specs.Entries.{entry_of};
ghost use Rattle.piv_model.specs.Written.{at_place, command_length, HasRoom, IsPushed};

use crate::command::Command;
use crate::kinds::{Interface, Took};
use crate::no_memory::NoMemory;
use crate::stored::{StoredEntry, entry_at, stored_entry};
use std::alloc::Global;
use std::marker::Model;

/// What was asked of a card, as far as a note names it.
#[derive(Clone, Copy, PartialEq, Eq, Debug)]
pub enum ActKind {
    Connect(Interface),
    Disconnect(u32),
    Exchange(u32),
    Reset(Interface),
    Cut,
    Power,
}

/// Why an act changed nothing.
#[derive(Clone, Copy, PartialEq, Eq, Debug)]
pub enum Refusal {
    /// Another connection is open on the interface, and one of the two is exclusive.
    Locked,
    /// Sixteen connections are open.
    NoChannel,
    /// The power is off.
    Off,
    /// The power is on.
    On,
    /// The power is off, and the connection is open.
    Mute,
    /// A reset or a loss of power came since.
    Stale,
    /// The connection isn't open.
    NoConnection,
}

/// An entry of a history.
#[derive(Clone, Copy, Debug)]
pub enum Entry<'a> {
    /// Connection `c` was opened.
    Opened {
        c: u32,
        interface: Interface,
        shared: bool,
    },
    /// Connection `c` was closed.
    Closed {
        c: u32,
    },
    /// A command was executed; `block` is the random block that it drew.
    Call {
        c: u32,
        command: Command<'a>,
        sw: u16,
        block: Option<[u8; 16]>,
    },
    /// A part of a chain of commands was taken.
    Part {
        c: u32,
    },
    /// A further piece of a reply was given.
    Rest {
        c: u32,
    },
    /// An APDU was refused before a command was executed.
    Bad {
        c: u32,
        sw: u16,
    },
    /// An interface was reset.
    Reset {
        interface: Interface,
    },
    /// Power was lost, in this command of this connection where there is one.
    Cut {
        running: Option<(u32, Command<'a>)>,
    },
    /// Power was switched on, and the command that had lost it has come so far.
    Up {
        took: Took,
    },
    /// An act changed nothing.
    Note {
        act: ActKind,
        answer: Refusal,
    },
}

/// The entries of a card's history. The data of all their commands stand in one buffer and are lent.
#[derive(Drop)]
pub struct History {
    rows: Vec<StoredEntry>,
    bytes: Vec<u8>,
}

impl Model for History {
    ghost use Rattle.std.specs.Prelude.{◌-◌, map, reverse, length, All, vec_len, vec_capacity};
    ghost use Rattle.piv_model.specs.Written.{Written, entry_in, IsWithin};

    ghost Value = { Written };

    ghost view = { λ h. record {
      past = reverse (map (entry_in h.bytes.items) h.rows.items);
      entries = vec_capacity h.rows - vec_len h.rows;
      bytes = vec_capacity h.bytes - vec_len h.bytes;
    } };

    ghost invariant = { λ h. All (IsWithin (length h.bytes.items)) h.rows.items };
}

impl History {
    /// An empty history with room for so many entries and so many bytes of their commands.
    pub fn with_room(alloc: Global, entries: usize, bytes: usize) -> Result<History, NoMemory>
        ensures empty { IfOk result (λ h. h.past ≡ []) }
        ensures room { IfOk result (λ h. HasRoom entries bytes h) }
    {
        let rows = Vec::with_capacity(alloc, entries)?;
        let bytes = Vec::with_capacity(alloc, bytes)?;
        Ok(History { rows, bytes })
    }

    /// The room that is left, in entries and in bytes of their commands.
    pub fn room(&self) -> (usize, usize)
        ensures entries { result.0 ≡ self.now.entries }
        ensures bytes { result.1 ≡ self.now.bytes }
    {
        let entries = self.rows.capacity().saturating_sub(self.rows.len());
        let bytes = self.bytes.capacity().saturating_sub(self.bytes.len());
        (entries, bytes)
    }

    /// The number of entries.
    pub fn len(&self) -> usize
        ensures { result ≡ length self.now.past }
    {
        self.rows.len()
    }

    /// The entry at a place, counted from the oldest one.
    pub fn entry(&self, k: usize) -> Entry<'_>
        requires { k < length self.now.past }
        ensures { at_place self.now.past k ≡ Some (entry_of result) }
    {
        entry_at(&self.bytes, self.rows[k])
    }

    /// Adds an entry, for which there has to be room.
    pub fn push(&mut self, entry: Entry<'_>)
        requires { HasRoom 1 (command_length (entry_of entry)) self.old }
        ensures { IsPushed (entry_of entry.entry) self.old self.new }
    {
        let row = stored_entry(&mut self.bytes, entry);
        self.rows.push(row).unwrap();
    }

    /// Makes room for so many entries and so many bytes of their commands. The entries, and the room that was
    /// there, stand also where memory is wanting.
    pub fn grow(&mut self, entries: usize, bytes: usize) -> Result<(), NoMemory>
        ensures same { self.new.past ≡ self.old.past }
        ensures kept { HasRoom self.old.entries self.old.bytes self.new }
        ensures room { OnOk result (HasRoom entries bytes self.new) }
    {
        self.rows.reserve(entries)?;
        self.bytes.reserve(bytes)?;
        Ok(())
    }

    /// Another history of the same entries.
    pub fn copy(&self) -> Result<History, NoMemory>
        ensures { IfOk result (λ h. h.past ≡ self.now.past) }
    {
        let rows = self.rows.clone()?;
        let bytes = self.bytes.clone()?;
        Ok(History { rows, bytes })
    }
}
