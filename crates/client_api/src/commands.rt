// The commands that calls send.
ghost use Rattle.std.specs.Prelude.{◌≡◌, ◌≤◌, ℕ, length, [], ◌∷◌, take};
ghost use Rattle.ber_tlv.specs.Elements.{spell};
ghost use Rattle.piv_model.specs.Objects.{row_at};
ghost use Rattle.client_api.specs.Calls.{command as command_of, verify as verify_of, piece as piece_of, challenge_in, challenge_answered};

use crate::state::Pin;
use aes_block::Key;
use arrayvec::ArrayVec;
use piv_apdu::write_command;
use piv_model::{Command, ObjectId, tag};

// The data of a piece of an element.
const PIECE: usize = 255;

/// A command of class 00 with Le 00, at most 255 bytes of data.
pub fn command(ins: u8, p1: u8, p2: u8, body: &[u8]) -> ArrayVec<u8, 261>
    requires { length body.now ≤ 255 }
    ensures bytes { result.items ≡ command_of ins p1 p2 body.now }
    ensures short { length result.items ≤ 261 }
{
    let mut out = ArrayVec::new();
    write_command(0x00, Command { ins, p1, p2, body }, Some(0x00), &mut out);
    out
}

/// A login by one PIN.
pub fn verify(pin: &Pin) -> ArrayVec<u8, 261>
    requires { length pin.now.pin ≤ 255 }
    ensures bytes { result.items ≡ verify_of pin.now }
    ensures short { length result.items ≤ 261 }
{
    let mut out = ArrayVec::new();
    let command = Command {
        ins: 0x20,
        p1: 0x00,
        p2: pin.reference,
        body: &pin.bytes,
    };
    write_command(0x00, command, None, &mut out);
    out
}

// The first 255 bytes, or all where there are fewer.
fn front(left: &[u8]) -> &[u8]
    ensures is { result.now ≡ take 255 left.now }
    ensures short { length result.now ≤ 255 }
{
    if left.len() > PIECE {
        &left[..PIECE]
    } else {
        left
    }
}

/// The next piece of an element, of which this is left.
pub fn piece(left: &[u8]) -> ArrayVec<u8, 261>
    ensures bytes { result.items ≡ piece_of left.now }
    ensures short { length result.items ≤ 261 }
{
    let class = if left.len() > PIECE { 0x10 } else { 0x00 };
    let mut out = ArrayVec::new();
    let command = Command {
        ins: 0xDB,
        p1: 0x3F,
        p2: 0xFF,
        body: front(left),
    };
    write_command(class, command, None, &mut out);
    out
}

/// The tag list of an object.
#[tactic(auto, using(crate::proofs::Tags::tag_laws))]
pub fn tag_list(object: ObjectId) -> ArrayVec<u8, 5>
    ensures bytes { result.items ≡ spell 0x5C (row_at object).tag }
    ensures short { (1 ≤ length result.items) × (length result.items ≤ 5) }
{
    let tag = tag(object);
    let mut out = ArrayVec::new();
    out.push(0x5C);
    out.push(tag.len() as u8);
    let _ = out.try_extend_from_slice(tag);
    out
}

// The challenge in a reply's data.
fn challenge(body: &[u8]) -> [u8; 16]
    ensures { result ≡ challenge_in body.now }
{
    let mut block = [0; 16];
    if body.len() >= 16 {
        block.copy_from_slice(&body[body.len() - 16..]);
    }
    block
}

/// The answer to the challenge in a reply's data.
pub fn response(key: &Key, body: &[u8]) -> ArrayVec<u8, 20>
    ensures bytes { result.items ≡ challenge_answered key.now body.now }
    ensures short { length result.items ≤ 20 }
{
    let mut out = ArrayVec::new();
    out.push(0x7C);
    out.push(0x12);
    out.push(0x82);
    out.push(0x10);
    let _ = out.try_extend_from_slice(&key.encrypt(&challenge(body)));
    out
}
