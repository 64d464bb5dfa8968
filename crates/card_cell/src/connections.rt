// The connections of a card that are open.
ghost use Rattle.std.specs.Prelude.{◌≡◌, ◌<◌, ◌≤◌, ◌+◌, ◌-◌, ◌∷◌, ◌^◌, [], ℕ, List, length, remove, find, position, true, false, IfSome, IfOk, vec_capacity};
ghost use Rattle.std.specs.List.{list_any};
ghost use Rattle.card_cell.specs.Kept.{has_number, bars, are_below, without};

use piv_model::limits::CONNECTIONS;
use piv_model::{Interface, NoMemory};
use std::alloc::Global;

// An open connection.
#[derive(Clone, Copy, Debug)]
pub(crate) struct Open {
    pub(crate) c: u32,
    pub(crate) interface: Interface,
    pub(crate) shared: bool,
}

// The connections that are open, the newest first, and how many were opened so far, which is the number of the newest.
#[derive(Drop)]
pub(crate) struct Connections {
    kept: Vec<Open>,
    opened: u32,
    ghost room: { 16 ≤ vec_capacity kept },
    ghost numbered: { are_below (opened + 1) kept.items ≡ true },
}

// The place of the connection of this number.
fn place_in(kept: &[Open], c: u32) -> Option<usize>
    ensures first { result ≡ position (has_number c) kept.now }
    ensures within { IfSome result (λ place. place < length kept.now) }
{
    kept.iter().position(|o| o.c == c)
}

// The connection of this number.
fn found_in(kept: &[Open], c: u32) -> Option<Open>
    ensures { result ≡ find (has_number c) kept.now }
{
    match place_in(kept, c) {
        Some(place) => Some(kept[place]),
        None => None,
    }
}

// A connection that is open bars a new one on this interface.
fn bars(one: &Open, interface: Interface, shared: bool) -> bool
    ensures { result ≡ bars interface shared one.now }
{
    one.interface == interface && !(shared && one.shared)
}

// Some connection bars a new one.
fn is_barred(kept: &[Open], interface: Interface, shared: bool) -> bool
    ensures { result ≡ list_any (bars interface shared) kept.now }
{
    kept.iter().any(|o| bars(o, interface, shared))
}

impl Connections {
    ghost use Rattle.card_cell.specs.Opened.{open_in, opened_in};

    // None was opened.
    pub(crate) fn new(alloc: Global) -> Result<Connections, NoMemory>
        ensures open { IfOk result (λ k. open_in k ≡ []) }
        ensures opened { IfOk result (λ k. opened_in k ≡ 0) }
    {
        let kept = Vec::with_capacity(alloc, CONNECTIONS)?;
        Ok(Connections { kept, opened: 0 })
    }

    // The connection of this number.
    pub(crate) fn found(&self, c: u32) -> Option<Open>
        ensures { result ≡ find (has_number c) (open_in self.now) }
    {
        found_in(&self.kept, c)
    }

    // Another connection is open on the interface, and it or the new one is exclusive.
    pub(crate) fn is_locked(&self, interface: Interface, shared: bool) -> bool
        ensures { result ≡ list_any (bars interface shared) (open_in self.now) }
    {
        is_barred(&self.kept, interface, shared)
    }

    // The number of the next connection.
    pub(crate) fn next(&self) -> u32
        requires { opened_in self.now < 2 ^ 32 - 1 }
        ensures { result ≡ opened_in self.now + 1 }
    {
        self.opened + 1
    }

    // Opens the next connection.
    pub(crate) fn add(&mut self, interface: Interface, shared: bool)
        requires few { opened_in self.old < 2 ^ 32 - 1 }
        requires room { length (open_in self.old) < 16 }
        ensures open { open_in self.new
            ≡ record { c = opened_in self.old + 1; interface = interface; shared = shared } ∷ open_in self.old }
        ensures opened { opened_in self.new ≡ opened_in self.old + 1 }
    {
        let c = self.next();
        let newest = Open {
            c,
            interface,
            shared,
        };
        self.kept.insert(0, newest).unwrap();
        self.opened = c;
    }

    // Closes the connection of this number, which is open. The number isn't used again.
    pub(crate) fn remove(&mut self, c: u32)
        ensures open { open_in self.new ≡ without c (open_in self.old) }
        ensures opened { opened_in self.new ≡ opened_in self.old }
    {
        if let Some(place) = place_in(&self.kept, c) {
            let _ = self.kept.remove(place);
        }
    }
}
