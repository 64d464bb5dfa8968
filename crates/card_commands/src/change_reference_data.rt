// CHANGE REFERENCE DATA (SP 800-73-4 part 2, 3.2.2).
ghost use Rattle.std.specs.Prelude.{◌≡◌, Bool, IfSome};
ghost use Rattle.piv_model.specs.Commands.{command_of};
ghost use Rattle.piv_rules.specs.Asks.{changed_reference, change_form, change_ask};
ghost use Rattle.piv_rules.specs.Lent.{ask_of};
ghost use Rattle.card_commands.specs.Asking.{profile_by, IsMeet, IsKept};

use crate::traits::Traits;
use crate::verify::verified_reference;
use piv_model::status_words::{INCORRECT_DATA, INCORRECT_P1_P2, REFERENCE_DATA_NOT_FOUND};
use piv_model::{Command, RefId};
use piv_references::read_pair;
use piv_rules::{Asked, Purpose};

// The reference that P2 names: the PUK, or one that VERIFY names.
fn changed_reference(p2: u8, traits: &Traits) -> Option<RefId>
    ensures value { result ≡ changed_reference (profile_by traits.now) p2 }
    ensures kept { IfSome result (IsKept traits.now.has_global) }
{
    if p2 == 0x81 {
        Some(RefId::Puk)
    } else {
        verified_reference(p2, traits)
    }
}

// What is asked of a reference: the old value is compared, and a match gives the new one.
fn change_form<'a>(r: RefId, command: Command<'a>) -> Asked<'a>
    ensures asks { ask_of result ≡ change_form r (command_of command.entry) }
    ensures meet { (global : Bool) → IsKept global r → IsMeet global result }
{
    match read_pair(r, command.body) {
        Some(pair) => {
            let old = pair.0;
            let new = pair.1;
            Asked::Compare(r, old, Purpose::Change(new))
        }
        None => Asked::Refused(INCORRECT_DATA),
    }
}

// What a CHANGE REFERENCE DATA asks.
pub(crate) fn change_asked<'a>(command: Command<'a>, traits: &Traits) -> Asked<'a>
    ensures asks { ask_of result ≡ change_ask (profile_by traits.now) (command_of command.entry) }
    ensures meet { IsMeet traits.now.has_global result }
{
    if command.p1 != 0x00 {
        return Asked::Refused(INCORRECT_P1_P2);
    }
    match changed_reference(command.p2, traits) {
        None => Asked::Refused(REFERENCE_DATA_NOT_FOUND),
        Some(r) => change_form(r, command),
    }
}
