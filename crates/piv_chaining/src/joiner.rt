// Commands that are joined from a chain of APDUs.
ghost use Rattle.std.specs.Prelude.{◌≡◌, ◌≤◌, ◌++◌, [], length, false, ⊤, IfOk};
ghost use Rattle.piv_model.specs.Commands.{command_of, apdu_of};
ghost use Rattle.piv_model.specs.Chains.{linked, sized};
ghost use Rattle.piv_chaining.specs.Chains.{chain_of, held_by};

use piv_model::limits::LONGEST_COMMAND;
use piv_model::status_words::{LAST_COMMAND_EXPECTED, WRONG_LENGTH};
use piv_model::{Apdu, Command, NoMemory};
use std::alloc::Global;
use std::marker::Model;

// The class of an earlier command of a chain.
const EARLIER_COMMAND: u8 = 0x10;

/// What an APDU made of a chain, with the whole command lent.
#[derive(Clone, Copy, Debug)]
pub enum Joined<'a> {
    /// The chain is longer.
    Part,
    /// The command is whole, and no chain is open.
    Whole(Command<'a>),
    /// The APDU is refused with this status word, and no chain is open.
    Refused(u16),
}

/// What an APDU made of a chain.
#[derive(Clone, Copy, PartialEq, Eq, Debug)]
pub enum Joining {
    /// The chain is longer.
    Part,
    /// The command is whole, and no chain is open.
    Whole,
    /// The APDU is refused with this status word, and no chain is open.
    Refused(u16),
}

/// Joins the data of a chain of commands, at most 16,640 bytes. The data of every command, also of
/// one that is no chain, are copied once, into the room that `new` reserved.
#[derive(Drop)]
pub struct Joiner {
    ins: u8,
    p1: u8,
    p2: u8,
    is_chain: bool,
    bytes: Vec<u8>,
}

impl Model for Joiner {
    ghost use Rattle.std.specs.Prelude.{◌≤◌, vec_len, vec_capacity};
    ghost use Rattle.piv_chaining.specs.Chains.{Chain};

    ghost Value = { Chain };

    ghost view = { λ j. record {
      command = record { ins = j.ins; p1 = j.p1; p2 = j.p2; body = j.bytes.items };
      is_chain = j.is_chain;
    } };

    ghost invariant = { λ j. (vec_len j.bytes ≤ 16640) × (16640 ≤ vec_capacity j.bytes) };
}

impl Joiner {
    /// Reserves room for a whole command. No chain is open.
    pub fn new(alloc: Global) -> Result<Joiner, NoMemory>
        ensures { IfOk result (λ joiner. joiner.is_chain ≡ false) }
    {
        let bytes = Vec::with_capacity(alloc, LONGEST_COMMAND)?;
        Ok(Joiner {
            ins: 0,
            p1: 0,
            p2: 0,
            is_chain: false,
            bytes,
        })
    }

    // The header of a command without data.
    fn begin(&mut self, apdu: &Apdu<'_>)
        ensures { self.new.command ≡ record (apdu_of apdu.now).command { body = [] } }
    {
        self.ins = apdu.ins;
        self.p1 = apdu.p1;
        self.p2 = apdu.p2;
        self.bytes.clear();
    }

    // Adds an APDU's data, if they fit.
    fn add(&mut self, class: u8, body: &[u8]) -> Joining
        ensures { let k = self.old.command in
            IsFed (sized class (record k { body = k.body ++ body.now })) result self.new }
    {
        self.is_chain = false;
        if self.bytes.len() + body.len() > LONGEST_COMMAND {
            return Joining::Refused(WRONG_LENGTH);
        }
        self.bytes.extend_from_slice(body).unwrap();
        if class == EARLIER_COMMAND {
            self.is_chain = true;
            return Joining::Part;
        }
        Joining::Whole
    }

    ghost use Rattle.std.specs.Borrow.{sem, follows_so};
    ghost use mathlib.Core.Option.{none};
    ghost use Rattle.piv_chaining.specs.contracts.joiner.Joiner.{the_row};
    ghost use Rattle.piv_chaining.specs.Fed.{IsFed, Lends, IsLent, joining_of};

    /// Takes an APDU that isn't a GET RESPONSE: with a chain open, 68 83 where another header comes, and
    /// 67 00 where more than 16,640 bytes would be joined; class 10 is a part; else the command is whole.
    pub fn feed<'a>(&'a mut self, apdu: &Apdu<'_>) -> Joined<'a>
        ensures* after { sem 𝓛 (follows_so the_row the_row self.entry.ghost_name none (λ _ _. ⊤)
            (λ new. IsFed (linked (chain_of self.old) (apdu_of apdu.now)) (joining_of result) new)) }
        ensures lent { Lends (linked (chain_of self.old) (apdu_of apdu.now)) result }
    {
        let joining = self.join(apdu);
        self.joined(joining)
    }

    // What an APDU came to, with what it lends.
    fn joined(&self, joining: Joining) -> Joined<'_>
        ensures same { joining_of result ≡ joining }
        ensures lent { IsLent self.now.command result }
    {
        match joining {
            Joining::Part => Joined::Part,
            Joining::Whole => Joined::Whole(self.command()),
            Joining::Refused(word) => Joined::Refused(word),
        }
    }

    /// Takes an APDU that isn't a GET RESPONSE. After Whole `command` is the joined command.
    pub fn join(&mut self, apdu: &Apdu<'_>) -> Joining
        ensures { IsFed (linked (chain_of self.old) (apdu_of apdu.now)) result self.new }
    {
        if !self.is_chain {
            self.begin(apdu);
            return self.add(apdu.class, apdu.body);
        }
        if apdu.ins != self.ins || apdu.p1 != self.p1 || apdu.p2 != self.p2 {
            self.is_chain = false;
            return Joining::Refused(LAST_COMMAND_EXPECTED);
        }
        self.add(apdu.class, apdu.body)
    }

    /// The command that was joined last.
    pub fn command(&self) -> Command<'_>
        ensures { command_of result ≡ self.now.command }
    {
        Command {
            ins: self.ins,
            p1: self.p1,
            p2: self.p2,
            body: self.bytes.as_slice(),
        }
    }

    /// Whether a chain is open.
    pub fn has_chain(&self) -> bool
        ensures { result ≡ self.now.is_chain }
    {
        self.is_chain
    }

    /// The bytes in the open chain.
    pub fn held(&self) -> usize
        ensures { result ≡ held_by self.now }
    {
        if self.is_chain { self.bytes.len() } else { 0 }
    }

    /// Drops the open chain. The command stands.
    pub fn drop_chain(&mut self)
        ensures { self.new ≡ record self.old { is_chain = false } }
    {
        self.is_chain = false;
    }
}
