// RESET RETRY COUNTER (SP 800-73-4 part 2, 3.2.3).
ghost use Rattle.std.specs.Prelude.{◌≡◌, Bool};
ghost use Rattle.piv_model.specs.Commands.{command_of};
ghost use Rattle.piv_rules.specs.Asks.{unblock_ask};
ghost use Rattle.piv_rules.specs.Lent.{ask_of};
ghost use Rattle.card_commands.specs.Asking.{IsMeet};

use piv_model::status_words::{INCORRECT_DATA, INCORRECT_P1_P2, REFERENCE_DATA_NOT_FOUND};
use piv_model::{Command, RefId};
use piv_references::read_unblock;
use piv_rules::{Asked, Purpose};

// What a RESET RETRY COUNTER asks: the PUK is compared, and a match gives the new PIN.
pub(crate) fn unblock_asked<'a>(command: Command<'a>) -> Asked<'a>
    ensures asks { ask_of result ≡ unblock_ask (command_of command.entry) }
    ensures meet { (global : Bool) → IsMeet global result }
{
    if command.p1 != 0x00 {
        return Asked::Refused(INCORRECT_P1_P2);
    }
    if command.p2 != 0x80 {
        return Asked::Refused(REFERENCE_DATA_NOT_FOUND);
    }
    match read_unblock(command.body) {
        Some(pair) => {
            let puk = pair.0;
            let new = pair.1;
            Asked::Compare(RefId::Puk, puk, Purpose::Unblock(new))
        }
        None => Asked::Refused(INCORRECT_DATA),
    }
}
