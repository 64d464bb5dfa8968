// The order in which a command is refused.
ghost use Rattle.std.specs.Prelude.{◌≡◌, ◌≢◌, true, false, [], List, ℕ, Some, is_some, IsTrue, IfSome, IfOk, IfErr, OnOk, OnErr};
ghost use Rattle.power_loss.specs.Told.{Rose, LostWhereDue};
ghost use Rattle.piv_model.specs.declared.kinds.Interface.{Interface};
ghost use Rattle.piv_model.specs.Commands.{command_of};
ghost use Rattle.piv_model.specs.Memory.{Memory};
ghost use Rattle.piv_rules.specs.Answers.{answer_to, situation};
ghost use Rattle.piv_rules.specs.Asks.{Refused, ask};
ghost use Rattle.piv_rules.specs.Plans.{cost_of};
ghost use Rattle.piv_rules.specs.Lent.{ask_of};
ghost use Rattle.card_commands.specs.Asking.{profile_by, IsMeet};
ghost use Rattle.card_commands.specs.Connections.{channel_of};
ghost use Rattle.card_commands.specs.Executes.{asked, replied, Executes, IsAnswered, IsBroken, IsReply, KeepsPower, TellsAlike};
ghost use Rattle.card_commands.specs.Words.{or_unserved, is_word_of, is_word_for};

use crate::change_reference_data::change_asked;
use crate::comparison::compare;
use crate::connection::Conn;
use crate::executed::{Broken, Executed, only};
use crate::general_authenticate::{auth_asked, authenticate};
use crate::get_data::{get, get_asked};
use crate::put_data::{place, put_asked};
use crate::reset_retry_counter::unblock_asked;
use crate::select::select;
use crate::traits::{Traits, traits_of};
use crate::verify::{log_out, query, verify_asked};
use auth_protocol::AuthAsk;
use piv_chaining::Pieces;
use piv_model::status_words::INSTRUCTION_NOT_SUPPORTED;
use piv_model::{Command, Interface, Store};
use piv_rules::Asked;

// The instructions (SP 800-73-4 part 2).
pub(crate) const SELECT: u8 = 0xA4;

const GET_DATA: u8 = 0xCB;

const PUT_DATA: u8 = 0xDB;

const VERIFY: u8 = 0x20;

const CHANGE_REFERENCE_DATA: u8 = 0x24;

const RESET_RETRY_COUNTER: u8 = 0x2C;

const GENERAL_AUTHENTICATE: u8 = 0x87;

// What a command other than SELECT asks.
#[tactic(auto, unfolding(piv_rules::specs::Asks::ask))]
pub(crate) fn asked_by<'a>(command: Command<'a>, traits: &Traits) -> Asked<'a>
    requires other { command.ins ≢ 0xA4 }
    ensures asks { ask_of result ≡ ask (profile_by traits.now) (command_of command.entry) }
    ensures meet { IsMeet traits.now.has_global result }
{
    match command.ins {
        GET_DATA => get_asked(command),
        PUT_DATA => put_asked(command, traits),
        VERIFY => verify_asked(command, traits),
        CHANGE_REFERENCE_DATA => change_asked(command, traits),
        RESET_RETRY_COUNTER => unblock_asked(command),
        GENERAL_AUTHENTICATE => auth_asked(command, traits),
        _ => Asked::Refused(INSTRUCTION_NOT_SUPPORTED),
    }
}

// A command of no good form, where PIV is selected.
#[tactic(auto, using(crate::proofs::Listed::listed), unfolding(piv_rules::specs::Answers::answer_to))]
fn refuse(sw: u16, conn: &mut Conn) -> Executed
    requires piv { conn.old.piv ≡ true }
    ensures word { IsTrue (is_word_for (Refused sw) result.sw) }
    ensures replies { (m : Memory) (i : Interface) (block : List ℕ) → IsReply (Refused sw)
        (answer_to (situation m i block (channel_of conn.old)) (Refused sw)) block
        result [] (channel_of conn.old) (channel_of conn.new) }
{
    conn.exchange.forget();
    only(sw)
}

// Answers what is asked.
#[tactic(auto, using(crate::proofs::Dispatching::kept))]
fn answer<S: Store>(
    asked: Asked<'_>,
    traits: &Traits,
    conn: &mut Conn,
    interface: Interface,
    store: &mut S,
    block: &[u8; 16],
    out: &mut Pieces,
) -> Result<Executed, Broken>
    requires on { IsTrue (S.state store.old).power.on }
    requires room { out.old.used ≡ 0 }
    requires empty { out.old.waiting ≡ [] }
    requires meet { IsMeet traits.now.has_global asked }
    requires global { IfSome (S.state store.old).mem (λ m. traits.now.has_global ≡ is_some m.global) }
    ensures word { IfOk result (λ done. IsTrue (or_unserved (is_word_for (ask_of asked.entry)) done.sw)) }
    ensures executes { let a = ask_of asked.entry in
        Executes S.put_cost (λ m. a) (λ m. answer_to (situation m interface block.now (channel_of conn.old)) a) block.now
        result out.new.waiting (channel_of conn.old) (channel_of conn.new) (S.state store.old) (S.state store.new) }
{
    let _global = traits.has_global;
    if !conn.piv {
        conn.exchange.forget();
        return Ok(only(INSTRUCTION_NOT_SUPPORTED));
    }
    match asked {
        Asked::Refused(word) => Ok(refuse(word, conn)),
        // SELECT is served before.
        Asked::Select(_) => unreachable!(),
        Asked::Get(id) => Ok(get(id, conn, interface, store, out)),
        Asked::Put(id, value) => place(id, value, conn, interface, store),
        Asked::Logout(r) => Ok(log_out(r, conn, interface)),
        Asked::Query(r) => Ok(query(r, conn, interface, store)),
        Asked::Compare(r, candidate, purpose) => {
            compare(r, &candidate, purpose, conn, interface, store)
        }
        Asked::Internal(challenge) => {
            let auth = AuthAsk::Internal(challenge);
            Ok(authenticate(auth, conn, interface, store, block, out))
        }
        Asked::AskChallenge => {
            let auth = AuthAsk::Challenge;
            Ok(authenticate(auth, conn, interface, store, block, out))
        }
        Asked::External(response) => {
            let auth = AuthAsk::External(response);
            Ok(authenticate(auth, conn, interface, store, block, out))
        }
        Asked::AskWitness => {
            let auth = AuthAsk::Witness;
            Ok(authenticate(auth, conn, interface, store, block, out))
        }
        Asked::Mutual(witness, challenge) => {
            let auth = AuthAsk::Mutual(witness, challenge);
            Ok(authenticate(auth, conn, interface, store, block, out))
        }
    }
}

// A command, by its instruction.
fn dispatch<S: Store>(
    command: Command<'_>,
    conn: &mut Conn,
    interface: Interface,
    store: &mut S,
    block: &[u8; 16],
    out: &mut Pieces,
) -> Result<Executed, Broken>
    requires on { IsTrue (S.state store.old).power.on }
    requires empty { out.old.waiting ≡ [] }
    requires room { out.old.used ≡ 0 }
    ensures word { IfOk result (λ done. IsTrue (is_word_of command.entry.ins done.sw)) }
    ensures executes { Executes S.put_cost (λ m. asked m (command_of command.entry))
        (λ m. replied m interface block.now (channel_of conn.old) (command_of command.entry)) block.now
        result out.new.waiting (channel_of conn.old) (channel_of conn.new) (S.state store.old) (S.state store.new) }
{
    if command.ins == SELECT {
        return Ok(select(command, conn, out));
    }
    let traits = traits_of(store);
    let asked = asked_by(command, &traits);
    answer(asked, &traits, conn, interface, store, block, out)
}

/// Executes a command on a connection (SP 800-73-4 part 2): the first rule of the table of answers that fits decides
/// the word. The data of the reply go into `out`, which is empty; `block` is the card's next random block. What is
/// said of the answer holds for the memory that the store tells.
pub fn execute<S: Store>(
    command: Command<'_>,
    conn: &mut Conn,
    interface: Interface,
    store: &mut S,
    block: &[u8; 16],
    out: &mut Pieces,
) -> Result<Executed, Broken>
    requires on { IsTrue (S.state store.old).power.on }
    requires empty { out.old.waiting ≡ [] }
    requires room { out.old.used ≡ 0 }

    // The word and the data are the table's, and so are the logins, the pending block and the memory afterwards.
    ensures answered { IfOk result (λ done. (m : Memory) → (S.state store.old).mem ≡ Some m →
        let k = command_of command.entry in
        IsAnswered S.put_cost (asked m k) (replied m interface block.now (channel_of conn.old) k) block.now
        done out.new.waiting (channel_of conn.old) (channel_of conn.new) (S.state store.old) (S.state store.new)) }

    // Whatever the store tells, the word is one of the instruction's.
    ensures word { IfOk result (λ done. IsTrue (is_word_of command.entry.ins done.sw)) }
    ensures others { OnOk result (KeepsPower (S.state store.old).power (S.state store.new).power) }

    // Where power was lost, the store is one of the two memories of the call that lost it.
    ensures broken { IfErr result (λ broken. (m : Memory) → (S.state store.old).mem ≡ Some m →
        let k = command_of command.entry in
        IsBroken S.put_cost (asked m k) (replied m interface block.now (channel_of conn.old) k) m broken (S.state store.old) (S.state store.new)) }
    ensures off { OnErr result ((S.state store.new).power.on ≡ false) }
    ensures rose { OnErr result (Rose (S.state store.old).power.losses (S.state store.new).power.losses) }

    // It is lost exactly where a loss is due within the writes that the command makes.
    ensures due { (m : Memory) → (S.state store.old).mem ≡ Some m → let k = command_of command.entry in
        LostWhereDue (cost_of S.put_cost (asked m k) (replied m interface block.now (channel_of conn.old) k).word)
        (S.state store.old).power.due result }
    ensures span { (S.state store.new).power.span ≡ (S.state store.old).power.span }
    ensures told { TellsAlike (S.state store.old) (S.state store.new) }
{
    dispatch(command, conn, interface, store, block, out)
}
