// One exchange on a connection: what its bytes are, and the command that they carry.
ghost use Rattle.std.specs.Prelude.{◌≡◌, ◌≤◌, ℕ, IsTrue, not};
ghost use Rattle.piv_model.specs.Commands.{apdu_of, CardCommand};
ghost use Rattle.piv_rules.specs.Frames.{get_response, is_get_response};
ghost use Rattle.piv_chaining.specs.Waiting.{Waiting};
ghost use Rattle.card_app.specs.Exchanges.{IsMade, IsFetched, IsFirst, IsCarried, leaves_on, LeavesStore};
ghost use Rattle.card_app.specs.Held.{KeepsHeld, taken};
ghost use Rattle.card_app.specs.Kept.{attached_as};

use crate::slot::Connection;
use card_commands::{Broken, Executed, execute};
use piv_apdu::read_command;
use piv_chaining::{Joiner, Joining, Pieces};
use piv_model::status_words::{CONDITIONS_NOT_SATISFIED, INCORRECT_P1_P2, SUCCESS, WRONG_LENGTH};
use piv_model::{Apdu, Store};

// What an exchange came to. The executed command is the joiner's, and the piece that is given that of the pieces.
#[derive(Clone, Copy)]
pub(crate) enum Exchanged {
    Part,
    Call { done: Executed, last: u16 },
    Rest { last: u16 },
    Bad(u16),
    Lost(Broken),
}

// Whether an APDU is a GET RESPONSE where no chain is open.
fn is_fetch(apdu: &Apdu<'_>) -> bool
    ensures { result ≡ is_get_response (apdu_of apdu.now) }
{
    apdu.class == 0x00 && apdu.ins == 0xC0
}

// The next piece, or the word that refuses it.
fn fetch(apdu: &Apdu<'_>, pieces: &mut Pieces) -> Exchanged
    requires low { 1 ≤ apdu.now.most }
    requires high { apdu.now.most ≤ 256 }
    ensures fetched { IsFetched (get_response (apdu_of apdu.now).command apdu.now.most pieces.old.waiting) result pieces.old pieces.new }
    ensures none { (k : CardCommand) → taken result k ≡ 0 }
{
    if !apdu.body.is_empty() {
        pieces.clear();
        return Exchanged::Bad(WRONG_LENGTH);
    }
    if apdu.p1 != 0 || apdu.p2 != 0 {
        pieces.clear();
        return Exchanged::Bad(INCORRECT_P1_P2);
    }
    match pieces.step(apdu.most) {
        None => Exchanged::Bad(CONDITIONS_NOT_SATISFIED),
        Some(last) => Exchanged::Rest { last },
    }
}

// The first piece of a reply, with its word.
fn first_piece(sw: u16, pieces: &mut Pieces, most: usize) -> u16
    requires low { 1 ≤ most }
    requires high { most ≤ 256 }
    ensures { IsFirst sw most result pieces.old pieces.new }
{
    if sw != SUCCESS {
        pieces.clear();
        return sw;
    }
    match pieces.step(most) {
        None => SUCCESS,
        Some(last) => last,
    }
}

// Executes the command that was joined.
fn carry<S: Store>(
    store: &mut S,
    connection: &mut Connection,
    joiner: &Joiner,
    pieces: &mut Pieces,
    most: usize,
    block: &[u8; 16],
) -> Exchanged
    requires on { IsTrue (S.state store.old).power.on }
    requires low { 1 ≤ most }
    requires high { most ≤ 256 }
    ensures carried { (before : Waiting) → IsCarried S.put_cost block.now most result joiner.now.command
        (attached_as joiner.now before connection.old) (attached_as joiner.now pieces.new connection.new)
        pieces.new (S.state store.old) (S.state store.new) }
    ensures same { connection.new ≡ record connection.old { conn = connection.new.conn } }
    ensures power { (S.state store.new).power.on ≡ leaves_on result }
    ensures leaves { LeavesStore result (S.state store.old) (S.state store.new) }
{
    pieces.clear();
    let interface = connection.interface;
    match execute(
        joiner.command(),
        &mut connection.conn,
        interface,
        store,
        block,
        pieces,
    ) {
        Err(broken) => Exchanged::Lost(broken),
        Ok(done) => {
            let last = first_piece(done.sw, pieces, most);
            Exchanged::Call { done, last }
        }
    }
}

// Reads an APDU on a connection, and does what it asks.
pub(crate) fn exchange_on<S: Store>(
    store: &mut S,
    connection: &mut Connection,
    joiner: &mut Joiner,
    pieces: &mut Pieces,
    bytes: &[u8],
    block: &[u8; 16],
) -> Exchanged
    requires on { IsTrue (S.state store.old).power.on }
    ensures made { IsMade S.put_cost bytes.now block.now result joiner.new.command pieces.new.piece
        (attached_as joiner.old pieces.old connection.old) (attached_as joiner.new pieces.new connection.new)
        (S.state store.old) (S.state store.new) }
    ensures same { connection.new ≡ record connection.old { conn = connection.new.conn } }
    ensures power { (S.state store.new).power.on ≡ leaves_on result }
    ensures leaves { LeavesStore result (S.state store.old) (S.state store.new) }
    ensures held { KeepsHeld result joiner.old joiner.new }
{
    let apdu = match read_command(bytes) {
        Ok(apdu) => apdu,
        Err(word) => {
            joiner.drop_chain();
            pieces.clear();
            return Exchanged::Bad(word);
        }
    };
    if !joiner.has_chain() && is_fetch(&apdu) {
        return fetch(&apdu, pieces);
    }
    match joiner.join(&apdu) {
        Joining::Part => {
            pieces.clear();
            Exchanged::Part
        }
        Joining::Refused(word) => {
            pieces.clear();
            Exchanged::Bad(word)
        }
        Joining::Whole => carry(store, connection, joiner, pieces, apdu.most, block),
    }
}
