// SELECT (SP 800-73-4 part 2, 3.1.1).
ghost use Rattle.std.specs.Prelude.{◌≡◌, IsTrue, [], List, ℕ, IfErr, MatchResult};
ghost use Rattle.piv_model.specs.declared.kinds.Interface.{Interface};
ghost use Rattle.piv_model.specs.Commands.{command_of};
ghost use Rattle.piv_model.specs.Memory.{Memory};
ghost use Rattle.piv_rules.specs.Asks.{Select, Refused, select_ask};
ghost use Rattle.piv_rules.specs.Answers.{select_reply, situation};
ghost use Rattle.card_commands.specs.Connections.{channel_of};
ghost use Rattle.card_commands.specs.Executes.{IsReply};
ghost use Rattle.card_commands.specs.Words.{is_select_word};

use crate::connection::Conn;
use crate::executed::{Executed, only};
use piv_chaining::Pieces;
use piv_model::status_words::{INCORRECT_P1_P2, NOT_FOUND, SUCCESS};
use piv_model::{Application, Command, application_by_name};

// The application property template, which the PIV application answers.
const TEMPLATE: [u8; 19] = [
    0x61, 0x11, 0x4F, 0x06, 0x00, 0x00, 0x10, 0x00, 0x01, 0x00, 0x79, 0x07, 0x4F, 0x05, 0xA0, 0x00,
    0x00, 0x03, 0x08,
];

// The application that a SELECT names, or the word that refuses it.
pub(crate) fn select_asked(command: Command<'_>) -> Result<Application, u16>
    ensures word { IfErr result (λ word. IsTrue (is_select_word word)) }
    ensures asks { MatchResult result
        (λ application. select_ask (command_of command.entry) ≡ Select application)
        (λ word. select_ask (command_of command.entry) ≡ Refused word) }
{
    if command.p1 != 0x04 || command.p2 != 0x00 {
        return Err(INCORRECT_P1_P2);
    }
    match application_by_name(command.body) {
        Some(application) => Ok(application),
        None => Err(NOT_FOUND),
    }
}

// SELECT, which is served under either application.
pub(crate) fn select(command: Command<'_>, conn: &mut Conn, out: &mut Pieces) -> Executed
    requires room { out.old.used ≡ 0 }
    requires empty { out.old.waiting ≡ [] }
    ensures word { IsTrue (is_select_word result.sw) }
    ensures replies { (m : Memory) (i : Interface) (block : List ℕ) → let a = select_ask (command_of command.entry) in
        IsReply a (select_reply (situation m i block (channel_of conn.old)) a) block
        result out.new.waiting (channel_of conn.old) (channel_of conn.new) }
{
    conn.exchange.forget();
    match select_asked(command) {
        Err(word) => only(word),
        Ok(Application::Piv) => {
            conn.piv = true;
            out.push(&TEMPLATE);
            only(SUCCESS)
        }
        Ok(Application::Idle) => {
            conn.piv = false;
            conn.pin = false;
            conn.admin = false;
            only(SUCCESS)
        }
    }
}
