// GENERAL AUTHENTICATE (SP 800-73-4 part 2, 3.2.4).
ghost use Rattle.std.specs.Prelude.{◌≡◌, Bool, true, false, [], List, ℕ, None, Some, IsTrue, IfSome, option_map, option_and_then};
ghost use Rattle.ber_tlv.specs.Elements.{elements_of};
ghost use Rattle.piv_model.specs.declared.kinds.Interface.{Interface};
ghost use Rattle.piv_model.specs.Commands.{command_of};
ghost use Rattle.piv_rules.specs.Answers.{rule_of, template_with};
ghost use Rattle.piv_rules.specs.Asks.{key_named, auth_meant, authenticate_ask};
ghost use Rattle.piv_rules.specs.Channels.{after_call};
ghost use Rattle.piv_rules.specs.Forms.{fields_of};
ghost use Rattle.auth_protocol.specs.Answered.{answered, left_by};
ghost use Rattle.auth_protocol.specs.Keys.{keys_in};
ghost use Rattle.piv_rules.specs.Lent.{ask_of};
ghost use Rattle.card_commands.specs.Asking.{auth_of, profile_by, IsMeet};
ghost use Rattle.card_commands.specs.Connections.{channel_of};
ghost use Rattle.card_commands.specs.Executes.{Replies};
ghost use Rattle.card_commands.specs.Words.{is_auth_word};

use crate::access::is_permitted;
use crate::connection::Conn;
use crate::executed::{Executed, only};
use crate::traits::Traits;
use auth_protocol::{AuthAsk, AuthOut, Exchange, StoreKeys, meaning};
use piv_chaining::Pieces;
use piv_model::status_words::{
    INCORRECT_DATA, INCORRECT_P1_P2, SECURITY_STATUS_NOT_SATISFIED, SUCCESS,
};
use piv_model::{Command, Interface, KeyId, Rule, Store, use_rule};
use piv_objects::auth_template;
use piv_rules::Asked;

// The references of the keys (SP 800-78-4).
const CARD_MANAGEMENT_KEY: u8 = 0x9B;

const CARD_AUTHENTICATION_KEY: u8 = 0x9E;

// The fields of a dynamic authentication template.
const WITNESS: u8 = 0x80;

const CHALLENGE: u8 = 0x81;

const RESPONSE: u8 = 0x82;

// The key that the header names, by its reference and its algorithm.
fn key_named(command: Command<'_>, traits: &Traits) -> Option<KeyId>
    ensures { result ≡ key_named (profile_by traits.now) (command_of command.entry) }
{
    if command.p2 == CARD_MANAGEMENT_KEY && command.p1 == traits.admin_algorithm {
        Some(KeyId::AdminKey)
    } else if command.p2 == CARD_AUTHENTICATION_KEY && command.p1 == traits.card_algorithm {
        Some(KeyId::CardAuth)
    } else {
        None
    }
}

// What the data ask of a key.
#[tactic(auto, using(crate::proofs::AuthLemmas::sizes))]
fn auth_meant(key: KeyId, body: &[u8]) -> Option<AuthAsk>
    ensures { option_map auth_of result
        ≡ option_and_then (auth_meant key) (option_and_then fields_of (elements_of body.now)) }
{
    match auth_template(body) {
        Ok(fields) => meaning(key, &fields),
        Err(_) => None,
    }
}

// What is asked of a key, among all that a command can ask.
fn asked_for<'a>(auth: AuthAsk) -> Asked<'a>
    ensures asks { ask_of result ≡ auth_of auth }
    ensures meet { (global : Bool) → IsMeet global result }
{
    match auth {
        AuthAsk::Internal(challenge) => Asked::Internal(challenge),
        AuthAsk::Challenge => Asked::AskChallenge,
        AuthAsk::External(response) => Asked::External(response),
        AuthAsk::Witness => Asked::AskWitness,
        AuthAsk::Mutual(witness, challenge) => Asked::Mutual(witness, challenge),
    }
}

// What a GENERAL AUTHENTICATE asks.
pub(crate) fn auth_asked<'a>(command: Command<'a>, traits: &Traits) -> Asked<'a>
    ensures asks { ask_of result ≡ authenticate_ask (profile_by traits.now) (command_of command.entry) }
    ensures meet { (global : Bool) → IsMeet global result }
{
    match key_named(command, traits) {
        None => Asked::Refused(INCORRECT_P1_P2),
        Some(key) => match auth_meant(key, command.body) {
            None => Asked::Refused(INCORRECT_DATA),
            Some(auth) => asked_for(auth),
        },
    }
}

// The rule for what is asked.
fn rule_for(asked: AuthAsk) -> Rule
    ensures { (i : Interface) → result ≡ rule_of i (auth_of asked) }
{
    match asked {
        AuthAsk::Internal(_) => use_rule(KeyId::CardAuth),
        AuthAsk::Challenge | AuthAsk::External(_) | AuthAsk::Witness | AuthAsk::Mutual(..) => {
            use_rule(KeyId::AdminKey)
        }
    }
}

// A template with one field.
fn give(tag: u8, value: &[u8; 16], out: &mut Pieces)
    requires room { out.old.used ≡ 0 }
    requires empty { out.old.waiting ≡ [] }
    ensures { out.new.waiting ≡ template_with tag value.now }
{
    out.push(&[0x7C, 0x12, tag, 0x10]);
    out.push(value);
}

// What the exchange answers under the card's keys.
fn step<S: Store>(exchange: &mut Exchange, asked: AuthAsk, block: &[u8; 16], store: &S) -> AuthOut
    requires on { IsTrue (S.state store.now).power.on }
    ensures form { result ≡ AuthOut.NoForm → ⊥ }
    ensures pending { exchange.new ≡ left_by asked block.now }
    ensures answer { IfSome (S.state store.now).mem (λ m.
        result ≡ answered (keys_in m) exchange.old asked block.now) }
{
    exchange.answer(asked, block, &StoreKeys::new(store))
}

// What is refused ends the login where it was to give one.
fn refuse(asked: AuthAsk, conn: &mut Conn) -> Executed
    ensures word { result ≡ record { sw = 0x6982; drew = false } }
    ensures channel { channel_of conn.new ≡ after_call (auth_of asked) 0x6982 None (channel_of conn.old) }
{
    conn.exchange.forget();
    if matches!(asked, AuthAsk::External(_) | AuthAsk::Mutual(..)) {
        conn.admin = false;
    }
    only(SECURITY_STATUS_NOT_SATISFIED)
}

// A GENERAL AUTHENTICATE, where PIV is selected.
#[tactic(auto, unfolding(piv_rules::specs::Answers::answer_to))]
pub(crate) fn authenticate<S: Store>(
    asked: AuthAsk,
    conn: &mut Conn,
    interface: Interface,
    store: &S,
    block: &[u8; 16],
    out: &mut Pieces,
) -> Executed
    requires on { IsTrue (S.state store.now).power.on }
    requires piv { conn.old.piv ≡ true }
    requires room { out.old.used ≡ 0 }
    requires empty { out.old.waiting ≡ [] }
    ensures word { IsTrue (is_auth_word result.sw) }
    ensures replies { Replies (auth_of asked) interface block.now result out.new.waiting
        (channel_of conn.old) (channel_of conn.new) (S.state store.now).mem }
{
    if !is_permitted(rule_for(asked), conn, interface, store) {
        return refuse(asked, conn);
    }
    match step(&mut conn.exchange, asked, block, store) {
        AuthOut::Challenge => {
            conn.admin = false;
            give(CHALLENGE, block, out);
            Executed {
                sw: SUCCESS,
                drew: true,
            }
        }
        AuthOut::Cipher(witness) => {
            conn.admin = false;
            give(WITNESS, &witness, out);
            Executed {
                sw: SUCCESS,
                drew: true,
            }
        }
        AuthOut::Granted => {
            conn.admin = true;
            only(SUCCESS)
        }
        AuthOut::Mutual(response) => {
            conn.admin = true;
            give(RESPONSE, &response, out);
            only(SUCCESS)
        }
        AuthOut::Internal(response) => {
            give(RESPONSE, &response, out);
            only(SUCCESS)
        }
        AuthOut::NoPending | AuthOut::NoForm => only(INCORRECT_DATA),
        AuthOut::Wrong => {
            conn.admin = false;
            only(SECURITY_STATUS_NOT_SATISFIED)
        }
    }
}
