// A connection with its buffers.
ghost use Rattle.std.specs.Prelude.{◌≡◌, ◌<◌, ◌≤◌, length, position, IfSome};
ghost use Rattle.card_laws.specs.ConnectionSteps.{after_reset, after_cut};
ghost use Rattle.piv_chaining.specs.Chains.{held_by};
ghost use Rattle.card_app.specs.Kept.{is_at, slot_attached, is_free, EachBecameBy};
ghost use Rattle.card_app.specs.declared.slot.Slot.{Slot};

use card_commands::Conn;
use piv_chaining::{Joiner, Pieces};
use piv_model::Interface;

// A connection: its number, its interface, and what commands see of it.
#[derive(Clone, Copy, Debug)]
pub(crate) struct Connection {
    pub(crate) c: u32,
    pub(crate) interface: Interface,
    pub(crate) conn: Conn,
}

// A connection, or a place for one, with its open chain and the data that wait.
#[derive(Drop)]
pub(crate) struct Slot {
    pub(crate) connection: Option<Connection>,
    pub(crate) joiner: Joiner,
    pub(crate) pieces: Pieces,
}

impl Slot {
    ghost use Rattle.std.specs.Prelude.{Some, None, option_map, ℕ};
    ghost use Rattle.piv_model.specs.declared.kinds.Interface.{Interface};
    ghost use Rattle.card_laws.specs.ConnectionSteps.{fresh_on};

    // Whether it has the connection of this number.
    pub(crate) fn is_at(&self, c: u32) -> bool
        ensures { result ≡ is_at self.now c }
    {
        match self.connection {
            Some(connection) => connection.c == c,
            None => false,
        }
    }

    // Puts its connection back to the start. The command that was joined last stands.
    pub(crate) fn refresh(&mut self)
        ensures attached { slot_attached self.new ≡ option_map after_cut (slot_attached self.old) }
        ensures numbered { (c : ℕ) → is_at self.new c ≡ is_at self.old c }
        ensures held { held_by self.new.joiner ≤ held_by self.old.joiner }
        ensures command { self.new.joiner.command ≡ self.old.joiner.command }
    {
        self.joiner.drop_chain();
        self.pieces.clear();
        if let Some(connection) = self.connection {
            self.connection = Some(Connection {
                c: connection.c,
                interface: connection.interface,
                conn: Conn::new(),
            });
        }
    }

    // The same, where its connection is on this interface.
    pub(crate) fn refresh_on(&mut self, interface: Interface)
        ensures attached { slot_attached self.new ≡ option_map (after_reset interface) (slot_attached self.old) }
        ensures numbered { (c : ℕ) → is_at self.new c ≡ is_at self.old c }
        ensures held { held_by self.new.joiner ≤ held_by self.old.joiner }
    {
        if let Some(connection) = self.connection
            && connection.interface == interface
        {
            self.refresh();
        }
    }
}

// The place of the connection with this number.
pub(crate) fn place_of(slots: &[Slot], c: u32) -> Option<usize>
    ensures first { result ≡ position (λ (s : Slot). is_at s c) slots.now }
    ensures within { IfSome result (λ place. place < length slots.now) }
{
    slots.iter().position(|slot| slot.is_at(c))
}

// The first place without a connection.
pub(crate) fn free_place(slots: &[Slot]) -> Option<usize>
    ensures first { result ≡ position is_free slots.now }
    ensures within { IfSome result (λ place. place < length slots.now) }
{
    slots.iter().position(|slot| slot.connection.is_none())
}

// Puts each connection back to the start.
pub(crate) fn refresh_all(slots: &mut [Slot])
    ensures { EachBecameBy after_cut slots.old slots.new }
{
    for slot in slots.iter_mut() {
        slot.refresh();
    }
}

// The same for each connection on this interface.
pub(crate) fn refresh_side(slots: &mut [Slot], interface: Interface)
    ensures { EachBecameBy (after_reset interface) slots.old slots.new }
{
    for slot in slots.iter_mut() {
        slot.refresh_on(interface);
    }
}
