// VERIFY (SP 800-73-4 part 2, 3.2.1).
ghost use Rattle.std.specs.Prelude.{◌≡◌, Bool, true, [], List, ℕ, Some, None, IsTrue, IfSome};
ghost use Rattle.piv_model.specs.declared.kinds.Interface.{Interface};
ghost use Rattle.piv_model.specs.Commands.{command_of};
ghost use Rattle.piv_model.specs.Memory.{Memory, has};
ghost use Rattle.piv_rules.specs.Asks.{Logout, Query, verified_reference, verify_form, verify_ask};
ghost use Rattle.piv_rules.specs.Answers.{answer_to, situation};
ghost use Rattle.piv_rules.specs.Lent.{ask_of};
ghost use Rattle.card_commands.specs.Asking.{profile_by, IsMeet, IsKept};
ghost use Rattle.card_commands.specs.Connections.{channel_of};
ghost use Rattle.card_commands.specs.Executes.{IsReply, Replies};
ghost use Rattle.card_commands.specs.Words.{is_compare_word};

use crate::access::has_contact_use;
use crate::connection::Conn;
use crate::executed::{Executed, only};
use crate::traits::Traits;
use piv_model::status_words::{
    INCORRECT_DATA, INCORRECT_P1_P2, REFERENCE_DATA_NOT_FOUND, SECURITY_STATUS_NOT_SATISFIED,
    SUCCESS, verification_failed,
};
use piv_model::{Command, Interface, RefId, Store};
use piv_references::read_pin;
use piv_rules::{Asked, Purpose};

// The PIN that P2 names, the application's or the Global PIN of a card that has one.
pub(crate) fn verified_reference(p2: u8, traits: &Traits) -> Option<RefId>
    ensures value { result ≡ verified_reference (profile_by traits.now) p2 }
    ensures kept { IfSome result (IsKept traits.now.has_global) }
{
    match p2 {
        0x80 => Some(RefId::Pin),
        0x00 if traits.has_global => Some(RefId::GlobalPin),
        _ => None,
    }
}

// What is asked of a reference.
fn verify_form<'a>(r: RefId, command: Command<'a>) -> Asked<'a>
    ensures asks { ask_of result ≡ verify_form r (command_of command.entry) }
    ensures meet { (global : Bool) → IsKept global r → IsMeet global result }
{
    match (command.p1, command.body) {
        (0xFF, []) => Asked::Logout(r),
        (0x00, []) => Asked::Query(r),
        (0x00, value) => match read_pin(value) {
            Some(pin) => Asked::Compare(r, pin, Purpose::Verify),
            None => Asked::Refused(INCORRECT_DATA),
        },
        _ => Asked::Refused(INCORRECT_DATA),
    }
}

// What a VERIFY asks.
pub(crate) fn verify_asked<'a>(command: Command<'a>, traits: &Traits) -> Asked<'a>
    ensures asks { ask_of result ≡ verify_ask (profile_by traits.now) (command_of command.entry) }
    ensures meet { IsMeet traits.now.has_global result }
{
    if command.p1 != 0x00 && command.p1 != 0xFF {
        return Asked::Refused(INCORRECT_P1_P2);
    }
    match verified_reference(command.p2, traits) {
        None => Asked::Refused(REFERENCE_DATA_NOT_FOUND),
        Some(r) => verify_form(r, command),
    }
}

// The end of a login, where PIV is selected.
#[tactic(auto, unfolding(piv_rules::specs::Answers::answer_to))]
pub(crate) fn log_out(r: RefId, conn: &mut Conn, interface: Interface) -> Executed
    requires piv { conn.old.piv ≡ true }
    ensures word { IsTrue (is_compare_word result.sw) }
    ensures replies { (m : Memory) (block : List ℕ) → IsReply (Logout r)
        (answer_to (situation m interface block (channel_of conn.old)) (Logout r)) block
        result [] (channel_of conn.old) (channel_of conn.new) }
{
    conn.exchange.forget();
    if !has_contact_use(conn, interface) {
        return only(SECURITY_STATUS_NOT_SATISFIED);
    }
    conn.set(r, Some(false));
    only(SUCCESS)
}

// The question whether a login is in force, where PIV is selected.
#[tactic(auto, using(crate::proofs::Listed::listed), unfolding(piv_rules::specs::Answers::answer_to))]
pub(crate) fn query<S: Store>(
    r: RefId,
    conn: &mut Conn,
    interface: Interface,
    store: &S,
) -> Executed
    requires on { IsTrue (S.state store.now).power.on }
    requires has { IfSome (S.state store.now).mem (λ m. IsTrue (has m r)) }
    requires piv { conn.old.piv ≡ true }
    ensures word { IsTrue (is_compare_word result.sw) }
    ensures replies { (block : List ℕ) → Replies (Query r) interface block result []
        (channel_of conn.old) (channel_of conn.new) (S.state store.now).mem }
{
    conn.exchange.forget();
    if !has_contact_use(conn, interface) {
        return only(SECURITY_STATUS_NOT_SATISFIED);
    }
    if conn.has_login(r) {
        return only(SUCCESS);
    }
    only(verification_failed(store.tries(r)))
}
