// Comparisons with a reference: a try is spent first, and a match fills the counter.
ghost use Rattle.std.specs.Prelude.{◌≡◌, true, IsTrue, IfOk, IfSome, OnOk, OnErr, None, [], List, ℕ};
ghost use Rattle.power_loss.specs.Told.{LostWhereDue};
ghost use Rattle.piv_model.specs.Memory.{has};
ghost use Rattle.piv_model.specs.Stores.{changed, CutShort};
ghost use Rattle.piv_rules.specs.Answers.{answer_to, situation};
ghost use Rattle.piv_rules.specs.Asks.{Compare};
ghost use Rattle.piv_rules.specs.Channels.{after_call};
ghost use Rattle.piv_rules.specs.Effects.{after_match};
ghost use Rattle.piv_rules.specs.Logins.{compared, ends_if};
ghost use Rattle.piv_rules.specs.StatusWords.{is_mismatched};
ghost use Rattle.piv_rules.specs.Lent.{purpose_of};
ghost use Rattle.card_commands.specs.Asking.{Suits};
ghost use Rattle.card_commands.specs.Carried.{Carries};
ghost use Rattle.card_commands.specs.Connections.{channel_of};
ghost use Rattle.card_commands.specs.Executes.{Executes};
ghost use Rattle.card_commands.specs.Words.{is_compare_word};

use crate::access::is_permitted;
use crate::connection::Conn;
use crate::executed::{Broken, Executed, only};
use piv_model::status_words::{
    AUTHENTICATION_METHOD_BLOCKED, SECURITY_STATUS_NOT_SATISFIED, SUCCESS, verification_failed,
};
use piv_model::{Interface, Lost, RefId, Rule, Store};
use piv_rules::{Purpose, is_mismatched};

// What a match does.
fn fill<S: Store>(store: &mut S, r: RefId, purpose: Purpose) -> Result<(), Lost>
    requires on { IsTrue (S.state store.old).power.on }
    requires has { IfSome (S.state store.old).mem (λ m. IsTrue (has m r)) }
    requires form { Suits r purpose }
    ensures ok { OnOk result (S.state store.new ≡ changed 2 (after_match r (purpose_of purpose)) (S.state store.old)) }
    ensures lost { OnErr result (CutShort 2 (after_match r (purpose_of purpose)) (S.state store.old) (S.state store.new)) }
    ensures due { LostWhereDue 2 (S.state store.old).power.due result }
{
    match purpose {
        Purpose::Verify => store.restore(r),
        Purpose::Change(new) => store.renew(r, &new),
        Purpose::Unblock(new) => store.unblock(&new),
    }
}

// Compares a candidate with a reference, once the access rule permits it.
fn carry<S: Store>(
    store: &mut S,
    r: RefId,
    candidate: &[u8; 8],
    purpose: Purpose,
) -> Result<u16, Broken>
    requires on { IsTrue (S.state store.old).power.on }
    requires has { IfSome (S.state store.old).mem (λ m. IsTrue (has m r)) }
    requires form { Suits r purpose }
    ensures { let asked = Compare r candidate.now (purpose_of purpose) in
        Carries S.put_cost asked result (S.state store.old) (S.state store.new) }
{
    let tries = store.tries(r);
    if tries == 0 {
        return Ok(AUTHENTICATION_METHOD_BLOCKED);
    }
    let ticket = match store.spend(r) {
        Ok(ticket) => ticket,
        Err(Lost) => return Err(Broken::Spending { tries }),
    };
    if !store.matches(ticket, candidate) {
        return Ok(verification_failed(tries - 1));
    }
    match fill(store, r, purpose) {
        Ok(()) => Ok(SUCCESS),
        Err(Lost) => Err(Broken::Filling { tries }),
    }
}

// What a comparison makes of the login by its reference.
fn compared(sw: u16) -> Option<bool>
    ensures { result ≡ compared sw }
{
    if sw == SUCCESS {
        Some(true)
    } else if is_mismatched(sw) {
        Some(false)
    } else {
        None
    }
}

// What a comparison with the PUK makes of the login by the PIN.
fn ended(sw: u16) -> Option<bool>
    ensures { result ≡ ends_if (is_mismatched sw) }
{
    if is_mismatched(sw) { Some(false) } else { None }
}

// What a comparison that was answered so makes of its connection.
fn settle(conn: &mut Conn, r: RefId, purpose: Purpose, sw: u16)
    requires { Suits r purpose }
    ensures { (p : List ℕ) → channel_of conn.new
        ≡ after_call (Compare r p (purpose_of purpose)) sw None (channel_of conn.old) }
{
    conn.exchange.forget();
    match purpose {
        Purpose::Verify | Purpose::Change(_) => conn.set(r, compared(sw)),
        Purpose::Unblock(_) => conn.set(RefId::Pin, ended(sw)),
    }
}

// A comparison, where PIV is selected.
pub(crate) fn compare<S: Store>(
    r: RefId,
    candidate: &[u8; 8],
    purpose: Purpose,
    conn: &mut Conn,
    interface: Interface,
    store: &mut S,
) -> Result<Executed, Broken>
    requires on { IsTrue (S.state store.old).power.on }
    requires has { IfSome (S.state store.old).mem (λ m. IsTrue (has m r)) }
    requires suits { Suits r purpose }
    requires piv { conn.old.piv ≡ true }
    ensures word { IfOk result (λ done. IsTrue (is_compare_word done.sw)) }
    ensures executes { (block : List ℕ) → let a = Compare r candidate.now (purpose_of purpose) in
        Executes S.put_cost (λ m. a) (λ m. answer_to (situation m interface block (channel_of conn.old)) a) block
        result [] (channel_of conn.old) (channel_of conn.new) (S.state store.old) (S.state store.new) }
{
    if !is_permitted(Rule::ContactUse, conn, interface, store) {
        conn.exchange.forget();
        return Ok(only(SECURITY_STATUS_NOT_SATISFIED));
    }
    match carry(store, r, candidate, purpose) {
        Ok(sw) => {
            settle(conn, r, purpose, sw);
            Ok(only(sw))
        }
        Err(broken) => Err(broken),
    }
}
