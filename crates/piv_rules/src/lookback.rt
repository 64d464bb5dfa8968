// What a history says of a connection, found by looking back through its entries, as plain
// programs. Entries are given with the newest first.
ghost use Rattle.std.specs.Prelude.{◌≡◌, ℕ, List, Option};
ghost use Rattle.piv_model.specs.Commands.{command_of};
ghost use Rattle.piv_model.specs.Entries.{entry_of};
ghost use Rattle.piv_model.specs.Base.{Base, Profile, profile};
ghost use Rattle.piv_rules.specs.Asks.{ask};
ghost use Rattle.piv_rules.specs.Connections.{side, breaks, by_call};
ghost use Rattle.piv_rules.specs.StatusWords.{is_mismatched};
ghost use Rattle.piv_rules.specs.Logins.{compared, ends_if, pin_after, global_after, admin_after, in_force, login_after, pending, pending_by};
ghost use Rattle.piv_rules.specs.Lent.{ask_of, past_of, pending_of};

use crate::asked::{Asked, Purpose};
use piv_model::status_words::{SECURITY_STATUS_NOT_SATISFIED, SUCCESS, verification_failed};
use piv_model::{Application, Command, Entry, Interface, RefId};

/// A login of a connection: by the PIN, by the Global PIN, by the administration key.
#[derive(Clone, Copy, PartialEq, Eq, Debug)]
pub enum Login {
    Pin,
    Global,
    Admin,
}

/// The random block that a connection may still answer.
#[derive(Clone, Copy, Debug)]
pub enum Pending {
    None,
    Challenge([u8; 16]),
    Witness([u8; 16]),
}

/// A reader of commands for cards of one profile.
pub trait Asks {
    /// What the meaning of a command depends on.
    ghost profile: { Self → Profile };

    /// What a command asks.
    fn asked<'a>(&self, command: Command<'a>) -> Asked<'a>
        ensures { ask_of result ≡ ask (profile self.now) (command_of command.entry) };
}

/// The interface of a connection.
pub fn side_of(entries: &[Entry<'_>], c: u32) -> Interface
    ensures { result ≡ side (past_of entries.now) c }
{
    match entries.split_first() {
        None => Interface::Contact,
        Some((entry, before)) => match entry {
            Entry::Opened {
                c: opened,
                interface,
                ..
            } if *opened == c => *interface,
            _ => side_of(before, c),
        },
    }
}

/// An entry, after those before it, puts a connection back to the start.
pub fn is_break(entry: &Entry<'_>, before: &[Entry<'_>], c: u32) -> bool
    ensures { result ≡ breaks c (past_of before.now) (entry_of entry.now) }
{
    match entry {
        Entry::Opened { c: opened, .. } => *opened == c,
        Entry::Reset { interface } => *interface == side_of(before, c),
        Entry::Cut { .. } => true,
        _ => false,
    }
}

/// The word tells that a comparison failed.
pub fn is_mismatched(sw: u16) -> bool
    ensures { result ≡ is_mismatched sw }
{
    verification_failed(0) <= sw && sw <= verification_failed(15)
}

// What a comparison says of the login of its reference.
fn compared(sw: u16) -> Option<bool>
    ensures { result ≡ compared sw }
{
    if sw == SUCCESS {
        Some(true)
    } else if is_mismatched(sw) {
        Some(false)
    } else {
        None
    }
}

// The login ends where this holds.
fn ends_if(ends: bool) -> Option<bool>
    ensures { result ≡ ends_if ends }
{
    if ends { Some(false) } else { None }
}

fn pin_said(asked: &Asked<'_>, sw: u16) -> Option<bool>
    ensures { (block : Option (List ℕ)) → result ≡ pin_after (ask_of asked.now) sw block }
{
    match asked {
        Asked::Compare(RefId::Pin, _, Purpose::Verify | Purpose::Change(_)) => compared(sw),
        Asked::Compare(RefId::Puk, _, Purpose::Unblock(_)) => ends_if(is_mismatched(sw)),
        Asked::Logout(RefId::Pin) => ends_if(sw == SUCCESS),
        Asked::Select(Application::Idle) => ends_if(sw == SUCCESS),
        _ => None,
    }
}

fn global_said(asked: &Asked<'_>, sw: u16) -> Option<bool>
    ensures { (block : Option (List ℕ)) → result ≡ global_after (ask_of asked.now) sw block }
{
    match asked {
        Asked::Compare(RefId::GlobalPin, _, Purpose::Verify | Purpose::Change(_)) => compared(sw),
        Asked::Logout(RefId::GlobalPin) => ends_if(sw == SUCCESS),
        _ => None,
    }
}

fn admin_said(asked: &Asked<'_>, sw: u16, block: Option<[u8; 16]>) -> Option<bool>
    ensures { result ≡ admin_after (ask_of asked.now) sw block }
{
    match asked {
        Asked::External(_) | Asked::Mutual(_, _) => {
            if sw == SUCCESS {
                Some(true)
            } else {
                ends_if(block.is_some() || sw == SECURITY_STATUS_NOT_SATISFIED)
            }
        }
        Asked::Select(Application::Idle) => ends_if(block.is_some() || sw == SUCCESS),
        _ => ends_if(block.is_some()),
    }
}

// What an entry says of a login of a connection, if it is a call on it.
fn said<A: Asks>(asks: &A, entry: &Entry<'_>, c: u32, login: Login) -> Option<bool>
    ensures { (B : Base) → A.profile asks.now ≡ profile B
        → result ≡ by_call (profile B) c (login_after login) (entry_of entry.now) }
{
    match entry {
        Entry::Call {
            c: called,
            command,
            sw,
            block,
        } if *called == c => match login {
            Login::Pin => pin_said(&asks.asked(*command), *sw),
            Login::Global => global_said(&asks.asked(*command), *sw),
            Login::Admin => admin_said(&asks.asked(*command), *sw, *block),
        },
        _ => None,
    }
}

/// Whether a login of a connection is in force.
pub fn is_in_force<A: Asks>(asks: &A, entries: &[Entry<'_>], c: u32, login: Login) -> bool
    ensures { (B : Base) → A.profile asks.now ≡ profile B
        → result ≡ in_force B (past_of entries.now) c login }
{
    match entries.split_first() {
        None => false,
        Some((entry, before)) => {
            if is_break(entry, before, c) {
                return false;
            }
            match said(asks, entry, c, login) {
                Some(set) => set,
                None => is_in_force(asks, before, c, login),
            }
        }
    }
}

// The block that a call leaves to be answered.
fn drawn(asked: &Asked<'_>, block: Option<[u8; 16]>) -> Pending
    ensures { pending_of result ≡ pending_by (ask_of asked.now) block }
{
    let Some(block) = block else {
        return Pending::None;
    };
    match asked {
        Asked::AskChallenge => Pending::Challenge(block),
        Asked::AskWitness => Pending::Witness(block),
        _ => Pending::None,
    }
}

/// The block that a connection may still answer.
pub fn pending_on<A: Asks>(asks: &A, entries: &[Entry<'_>], c: u32) -> Pending
    ensures { (B : Base) → A.profile asks.now ≡ profile B
        → pending_of result ≡ pending B (past_of entries.now) c }
{
    match entries.split_first() {
        None => Pending::None,
        Some((entry, before)) => {
            if is_break(entry, before, c) {
                return Pending::None;
            }
            match entry {
                Entry::Call {
                    c: called,
                    command,
                    block,
                    ..
                } if *called == c => drawn(&asks.asked(*command), *block),
                _ => pending_on(asks, before, c),
            }
        }
    }
}
