// GET DATA (SP 800-73-4 part 2, 3.1.2).
ghost use Rattle.std.specs.Prelude.{◌≡◌, Bool, true, IsTrue, [], Some, List, ℕ, option_and_then};
ghost use Rattle.ber_tlv.specs.Elements.{elements_of};
ghost use Rattle.piv_model.specs.Commands.{command_of};
ghost use Rattle.piv_model.specs.Memory.{Memory};
ghost use Rattle.piv_rules.specs.Answers.{answer_to, situation};
ghost use Rattle.piv_rules.specs.Asks.{Get, get_ask};
ghost use Rattle.piv_rules.specs.Forms.{tag_named};
ghost use Rattle.piv_rules.specs.Lent.{ask_of};
ghost use Rattle.card_commands.specs.Asking.{shown, IsMeet};
ghost use Rattle.card_commands.specs.Connections.{channel_of};
ghost use Rattle.card_commands.specs.Executes.{Replies};
ghost use Rattle.card_commands.specs.Words.{is_get_word};

use crate::access::is_permitted;
use crate::connection::Conn;
use crate::executed::{Executed, only};
use ber_tlv::header;
use piv_chaining::Pieces;
use piv_model::status_words::{
    INCORRECT_DATA, INCORRECT_P1_P2, NOT_FOUND, SECURITY_STATUS_NOT_SATISFIED, SUCCESS,
};
use piv_model::{Command, Interface, ObjectId, Store, object_by_tag, read_rule};
use piv_objects::tag_list;
use piv_rules::Asked;

// The tags in front of an object's value.
const DISCOVERY: u32 = 0x7E;

const DATA: u32 = 0x53;

// The tag that the data name.
#[tactic(auto, using(crate::proofs::TagLemmas::tags))]
fn named_tag(body: &[u8]) -> Option<&[u8]>
    ensures { shown result ≡ option_and_then tag_named (elements_of body.now) }
{
    tag_list(body).ok()
}

// What a GET DATA asks.
pub(crate) fn get_asked<'a>(command: Command<'a>) -> Asked<'a>
    ensures asks { ask_of result ≡ get_ask (command_of command.entry) }
    ensures meet { (global : Bool) → IsMeet global result }
{
    if command.p1 != 0x3F || command.p2 != 0xFF {
        return Asked::Refused(INCORRECT_P1_P2);
    }
    match named_tag(command.body) {
        None => Asked::Refused(INCORRECT_DATA),
        Some(tag) => match object_by_tag(tag) {
            None => Asked::Refused(NOT_FOUND),
            Some(id) => Asked::Get(id),
        },
    }
}

// The word, and the data: the value in the store, behind its header.
#[tactic(auto, unfolding(piv_rules::specs::Answers::answer_to))]
fn give<S: Store>(
    id: ObjectId,
    conn: &Conn,
    interface: Interface,
    store: &S,
    out: &mut Pieces,
) -> u16
    requires on { IsTrue (S.state store.now).power.on }
    requires piv { conn.now.piv ≡ true }
    requires room { out.old.used ≡ 0 }
    requires empty { out.old.waiting ≡ [] }
    ensures word { IsTrue (is_get_word result) }
    ensures replies { (m : Memory) (block : List ℕ) → (S.state store.now).mem ≡ Some m →
        answer_to (situation m interface block (channel_of conn.now)) (Get id)
        ≡ record { word = result; body = out.new.waiting } }
{
    if !is_permitted(read_rule(id, interface), conn, interface, store) {
        return SECURITY_STATUS_NOT_SATISFIED;
    }
    let length = store.length(id);
    if length == 0 {
        return NOT_FOUND;
    }
    let tag = if id == ObjectId::discovery() {
        DISCOVERY
    } else {
        DATA
    };
    out.push(header(tag, length).as_slice());
    out.push_object(store, id, length);
    SUCCESS
}

// A GET DATA of this object, where PIV is selected.
pub(crate) fn get<S: Store>(
    id: ObjectId,
    conn: &mut Conn,
    interface: Interface,
    store: &S,
    out: &mut Pieces,
) -> Executed
    requires on { IsTrue (S.state store.now).power.on }
    requires piv { conn.old.piv ≡ true }
    requires room { out.old.used ≡ 0 }
    requires empty { out.old.waiting ≡ [] }
    ensures word { IsTrue (is_get_word result.sw) }
    ensures replies { (block : List ℕ) → Replies (Get id) interface block result out.new.waiting
        (channel_of conn.old) (channel_of conn.new) (S.state store.now).mem }
{
    let word = give(id, conn, interface, store, out);
    conn.exchange.forget();
    only(word)
}
