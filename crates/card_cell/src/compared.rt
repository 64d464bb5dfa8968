// The comparison that a command makes.
ghost use Rattle.std.specs.Prelude.{◌≡◌, IfSome};
ghost use Rattle.piv_model.specs.Commands.{command_of};
ghost use Rattle.piv_model.specs.Base.{Profile};
ghost use Rattle.piv_rules.specs.Asks.{ask, verified_reference, changed_reference, verify_ask, verify_form, change_ask, change_form, unblock_ask};
ghost use Rattle.card_cell.specs.Counts.{comparison_of};

use piv_model::{Command, RefId};
use piv_references::{read_pair, read_pin, read_unblock};

const VERIFY: u8 = 0x20;

const CHANGE_REFERENCE_DATA: u8 = 0x24;

const RESET_RETRY_COUNTER: u8 = 0x2C;

// A comparison of a reference. A match fills its counter, and that of the PIN too where it unblocks.
#[derive(Clone, Copy, Debug)]
pub(crate) struct Comparison {
    pub(crate) reference: RefId,
    pub(crate) unblocks: bool,
}

// The PIN that P2 names, the application's or the Global PIN of a card that has one.
fn verified_reference(p2: u8, has_global: bool) -> Option<RefId>
    ensures { (m : Profile) → m.has_global ≡ has_global → result ≡ verified_reference m p2 }
{
    match p2 {
        0x80 => Some(RefId::Pin),
        0x00 if has_global => Some(RefId::GlobalPin),
        _ => None,
    }
}

// The reference that P2 names: the PUK, or one that VERIFY names.
fn changed_reference(p2: u8, has_global: bool) -> Option<RefId>
    ensures { (m : Profile) → m.has_global ≡ has_global → result ≡ changed_reference m p2 }
{
    if p2 == 0x81 {
        Some(RefId::Puk)
    } else {
        verified_reference(p2, has_global)
    }
}

// That of a VERIFY of a reference.
fn verify_compares(reference: RefId, command: Command<'_>) -> Option<Comparison>
    ensures { result ≡ comparison_of (verify_form reference (command_of command.entry)) }
{
    match (command.p1, command.body) {
        (0x00, []) => None,
        (0x00, value) => match read_pin(value) {
            Some(_) => Some(Comparison {
                reference,
                unblocks: false,
            }),
            None => None,
        },
        _ => None,
    }
}

// That of a CHANGE REFERENCE DATA of a reference.
fn change_compares(reference: RefId, command: Command<'_>) -> Option<Comparison>
    ensures { result ≡ comparison_of (change_form reference (command_of command.entry)) }
{
    match read_pair(reference, command.body) {
        Some(_) => Some(Comparison {
            reference,
            unblocks: false,
        }),
        None => None,
    }
}

// That of a VERIFY.
fn verified(command: Command<'_>, has_global: bool) -> Option<Comparison>
    ensures { (m : Profile) → m.has_global ≡ has_global
        → result ≡ comparison_of (verify_ask m (command_of command.entry)) }
{
    if command.p1 != 0x00 && command.p1 != 0xFF {
        return None;
    }
    match verified_reference(command.p2, has_global) {
        None => None,
        Some(reference) => verify_compares(reference, command),
    }
}

// That of a CHANGE REFERENCE DATA.
fn changed(command: Command<'_>, has_global: bool) -> Option<Comparison>
    ensures { (m : Profile) → m.has_global ≡ has_global
        → result ≡ comparison_of (change_ask m (command_of command.entry)) }
{
    if command.p1 != 0x00 {
        return None;
    }
    match changed_reference(command.p2, has_global) {
        None => None,
        Some(reference) => change_compares(reference, command),
    }
}

// That of a RESET RETRY COUNTER.
fn unblocked(command: Command<'_>) -> Option<Comparison>
    ensures { result ≡ comparison_of (unblock_ask (command_of command.entry)) }
{
    if command.p1 != 0x00 || command.p2 != 0x80 {
        return None;
    }
    match read_unblock(command.body) {
        Some(_) => Some(Comparison {
            reference: RefId::Puk,
            unblocks: true,
        }),
        None => None,
    }
}

// That of a command, on a card that has a Global PIN or hasn't.
pub(crate) fn comparison_in(command: Command<'_>, has_global: bool) -> Option<Comparison>
    ensures { (m : Profile) → m.has_global ≡ has_global
        → result ≡ comparison_of (ask m (command_of command.entry)) }
{
    match command.ins {
        VERIFY => verified(command, has_global),
        CHANGE_REFERENCE_DATA => changed(command, has_global),
        RESET_RETRY_COUNTER => unblocked(command),
        _ => None,
    }
}
