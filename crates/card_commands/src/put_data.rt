// PUT DATA (SP 800-73-4 part 2, 3.3.1).
ghost use Rattle.std.specs.Prelude.{◌≡◌, ◌≢◌, ◌∷◌, Bool, true, IsTrue, IfOk, IfSome, is_some, [], Some, None, List, ℕ, option_and_then, if◌then◌else◌};
ghost use Rattle.ber_tlv.specs.Elements.{elements_of};
ghost use Rattle.piv_model.specs.Base.{Profile};
ghost use Rattle.piv_model.specs.Commands.{command_of};
ghost use Rattle.piv_model.specs.Forms.{is_discovery};
ghost use Rattle.piv_model.specs.Sound.{may_stand};
ghost use Rattle.piv_rules.specs.Asks.{Put, formed, put_ask, put_asked};
ghost use Rattle.piv_rules.specs.Answers.{answer_to, situation};
ghost use Rattle.piv_rules.specs.Forms.{put_named, ObjectForm, DiscoveryForm};
ghost use Rattle.piv_rules.specs.Lent.{ask_of};
ghost use Rattle.card_commands.specs.Asking.{profile_by, put_formed, IsApart, IsMeet};
ghost use Rattle.card_commands.specs.Carried.{Carries};
ghost use Rattle.card_commands.specs.Connections.{channel_of};
ghost use Rattle.card_commands.specs.Executes.{Executes};
ghost use Rattle.card_commands.specs.Words.{is_put_word};

use crate::access::is_permitted;
use crate::connection::Conn;
use crate::executed::{Broken, Executed, only};
use crate::traits::Traits;
use piv_model::status_words::{
    INCORRECT_DATA, INCORRECT_P1_P2, NOT_ENOUGH_MEMORY, NOT_FOUND, SECURITY_STATUS_NOT_SATISFIED,
    SUCCESS,
};
use piv_model::{Command, Interface, ObjectId, PutFault, Rule, Store, object_by_tag};
use piv_objects::{PutFields, discovery, put_fields};
use piv_rules::Asked;

// What the data carry.
fn put_parts(body: &[u8]) -> Option<PutFields<'_>>
    ensures form { (p : Profile) → option_and_then (put_named p) (elements_of body.now)
        ≡ option_and_then (put_formed p.has_global) result }
    ensures apart { IfSome result IsApart }
{
    match put_fields(body) {
        Ok(put) => Some(put),
        Err(_) => None,
    }
}

// Whether this card may have such a Discovery Object.
#[tactic(auto, unfolding(piv_model::specs::Forms::is_discovery))]
fn is_discovery_here(value: &[u8], has_global: bool) -> bool
    ensures { result ≡ is_discovery has_global value.now }
{
    match discovery(value) {
        Ok(policy) => has_global || policy == [0x40, 0x00],
        Err(_) => false,
    }
}

// What a PUT DATA of a Discovery Object asks.
fn discovery_asked<'a>(value: &'a [u8], has_global: bool) -> Asked<'a>
    ensures asks { ask_of result ≡ formed
        (if is_discovery has_global value.now then Some (DiscoveryForm value.now) else None) put_asked }
    ensures meet { IsMeet has_global result }
{
    if !is_discovery_here(value, has_global) {
        return Asked::Refused(INCORRECT_DATA);
    }
    Asked::Put(ObjectId::discovery(), value)
}

// What a PUT DATA of another object asks.
#[tactic(auto, using(crate::proofs::PutLemmas::places))]
fn object_asked<'a>(tag: &'a [u8], value: &'a [u8]) -> Asked<'a>
    requires { tag.now ≢ 0x7E ∷ [] }
    ensures asks { ask_of result ≡ put_asked (ObjectForm tag.now value.now) }
    ensures meet { (global : Bool) → IsMeet global result }
{
    match object_by_tag(tag) {
        Some(id) => Asked::Put(id, value),
        None => Asked::Refused(NOT_FOUND),
    }
}

// What the data ask.
fn put_meant<'a>(body: &'a [u8], traits: &Traits) -> Asked<'a>
    ensures asks { ask_of result
        ≡ formed (option_and_then (put_named (profile_by traits.now)) (elements_of body.now)) put_asked }
    ensures meet { IsMeet traits.now.has_global result }
{
    match put_parts(body) {
        None => Asked::Refused(INCORRECT_DATA),
        Some(PutFields::Discovery { value }) => discovery_asked(value, traits.has_global),
        Some(PutFields::Object { tag, value }) => object_asked(tag, value),
    }
}

// What a PUT DATA asks.
pub(crate) fn put_asked<'a>(command: Command<'a>, traits: &Traits) -> Asked<'a>
    ensures asks { ask_of result ≡ put_ask (profile_by traits.now) (command_of command.entry) }
    ensures meet { IsMeet traits.now.has_global result }
{
    if command.p1 != 0x3F || command.p2 != 0xFF {
        return Asked::Refused(INCORRECT_P1_P2);
    }
    put_meant(command.body, traits)
}

// A put that its access rule permits.
fn put<S: Store>(store: &mut S, id: ObjectId, value: &[u8]) -> Result<u16, Broken>
    requires on { IsTrue (S.state store.old).power.on }
    requires form { IfSome (S.state store.old).mem (λ m. IsTrue (may_stand (is_some m.global) id value.now)) }
    ensures { let asked = Put id value.now in
        Carries S.put_cost asked result (S.state store.old) (S.state store.new) }
{
    let same = store.same(id, value);
    match store.put(id, value) {
        Ok(()) => Ok(SUCCESS),
        Err(PutFault::TooLarge) => Ok(NOT_ENOUGH_MEMORY),
        Err(PutFault::Lost) => Err(Broken::Putting { same }),
    }
}

// A PUT DATA, where PIV is selected.
pub(crate) fn place<S: Store>(
    id: ObjectId,
    value: &[u8],
    conn: &mut Conn,
    interface: Interface,
    store: &mut S,
) -> Result<Executed, Broken>
    requires on { IsTrue (S.state store.old).power.on }
    requires form { IfSome (S.state store.old).mem (λ m. IsTrue (may_stand (is_some m.global) id value.now)) }
    requires piv { conn.old.piv ≡ true }
    ensures word { IfOk result (λ done. IsTrue (is_put_word done.sw)) }
    ensures executes { (block : List ℕ) → let a = Put id value.now in
        Executes S.put_cost (λ m. a) (λ m. answer_to (situation m interface block (channel_of conn.old)) a) block
        result [] (channel_of conn.old) (channel_of conn.new) (S.state store.old) (S.state store.new) }
{
    let _place = id.place();
    conn.exchange.forget();
    if !is_permitted(Rule::Admin, conn, interface, store) {
        return Ok(only(SECURITY_STATUS_NOT_SATISFIED));
    }
    match put(store, id, value) {
        Ok(sw) => Ok(only(sw)),
        Err(broken) => Err(broken),
    }
}
