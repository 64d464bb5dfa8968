ghost use Rattle.auth_protocol.specs.Meant.{HasFieldSize};

use crate::{AuthOut, Encipher, Exchange};
use piv_model::{AuthFields, KeyId};
use std::test::Fail;

// A cipher that isn't one: it turns every bit of the block, or every second one.
struct TurnedBits;

impl Encipher for TurnedBits {
    ghost use Rattle.std.specs.Prelude.{None};

    ghost keys = { λ _. None };

    fn encipher(&self, key: KeyId, block: &[u8; 16]) -> [u8; 16] {
        turned(key, *block)
    }
}

fn turned(key: KeyId, block: [u8; 16]) -> [u8; 16] {
    let mask = match key {
        KeyId::AdminKey => 0xFF,
        KeyId::CardAuth => 0x55,
    };
    block.map(|b| b ^ mask)
}

#[derive(Clone, Copy, PartialEq, Eq, Debug)]
enum Size {
    Absent,
    Empty,
    Sixteen,
}

const SIZES: [Size; 3] = [Size::Absent, Size::Empty, Size::Sixteen];

const BLOCK: [u8; 16] = [0xB1; 16];

const WITNESS: [u8; 16] = [0x80; 16];

const CHALLENGE: [u8; 16] = [0x81; 16];

const RESPONSE: [u8; 16] = [0x82; 16];

fn field(size: Size, bytes: &[u8; 16]) -> Option<&[u8]>
    ensures { HasFieldSize result }
{
    match size {
        Size::Absent => None,
        Size::Empty => Some(&[]),
        Size::Sixteen => Some(bytes),
    }
}

// Answers fields of these sizes; the block and the Witness are answered as the arguments say.
fn step(
    exchange: &mut Exchange,
    key: KeyId,
    sizes: [Size; 3],
    witness: [u8; 16],
    response: [u8; 16],
) -> AuthOut {
    let [f80, f81, f82] = sizes;
    let fields = AuthFields {
        f80: field(f80, &witness),
        f81: field(f81, &CHALLENGE),
        f82: field(f82, &response),
    };
    exchange.step(key, &fields, &BLOCK, &TurnedBits)
}

// What the table of forms says where nothing is pending.
fn with_nothing_pending(key: KeyId, sizes: [Size; 3]) -> AuthOut {
    match (key, sizes) {
        (KeyId::CardAuth, [Size::Absent, Size::Sixteen, Size::Empty]) => {
            AuthOut::Internal([0xD4; 16])
        }
        (KeyId::AdminKey, [Size::Absent, Size::Empty, Size::Absent]) => AuthOut::Challenge,
        (KeyId::AdminKey, [Size::Absent, Size::Absent, Size::Sixteen]) => AuthOut::NoPending,
        (KeyId::AdminKey, [Size::Empty, Size::Absent, Size::Absent]) => AuthOut::Cipher([0x4E; 16]),
        (KeyId::AdminKey, [Size::Sixteen, Size::Sixteen, Size::Absent | Size::Empty]) => {
            AuthOut::NoPending
        }
        _ => AuthOut::NoForm,
    }
}

#[test]
fn every_set_of_fields_is_a_form_of_its_key_or_none(rt: HostRuntime) -> Result<(), Fail> {
    for key in [KeyId::AdminKey, KeyId::CardAuth] {
        for f80 in SIZES {
            for f81 in SIZES {
                for f82 in SIZES {
                    let sizes = [f80, f81, f82];
                    let mut exchange = Exchange::new();
                    let out = step(&mut exchange, key, sizes, WITNESS, RESPONSE);
                    assert!(rt;
                        out == with_nothing_pending(key, sizes),
                        "{key:?} {sizes:?}"
                    );
                }
            }
        }
    }
    Ok(())
}

const ASK_CHALLENGE: [Size; 3] = [Size::Absent, Size::Empty, Size::Absent];

const ASK_WITNESS: [Size; 3] = [Size::Empty, Size::Absent, Size::Absent];

const EXTERNAL: [Size; 3] = [Size::Absent, Size::Absent, Size::Sixteen];

const MUTUAL: [Size; 3] = [Size::Sixteen, Size::Sixteen, Size::Absent];

const NO_FORM: [Size; 3] = [Size::Absent, Size::Absent, Size::Absent];

#[test]
fn a_block_is_answered_once_and_as_what_it_was_given(rt: HostRuntime) -> Result<(), Fail> {
    let right = [0x4E; 16];
    let mutual = AuthOut::Mutual([0x7E; 16]);
    let rows = [
        (EXTERNAL, AuthOut::NoPending),
        (ASK_CHALLENGE, AuthOut::Challenge),
        (EXTERNAL, AuthOut::Granted),
        (EXTERNAL, AuthOut::NoPending),
        (ASK_WITNESS, AuthOut::Cipher([0x4E; 16])),
        (EXTERNAL, AuthOut::NoPending),
        (MUTUAL, AuthOut::NoPending),
        (ASK_WITNESS, AuthOut::Cipher([0x4E; 16])),
        (MUTUAL, mutual),
        (MUTUAL, AuthOut::NoPending),
        (ASK_CHALLENGE, AuthOut::Challenge),
        (MUTUAL, AuthOut::NoPending),
        (ASK_CHALLENGE, AuthOut::Challenge),
        (NO_FORM, AuthOut::NoForm),
        (EXTERNAL, AuthOut::NoPending),
    ];
    let mut exchange = Exchange::new();
    for (sizes, expected) in rows {
        let out = step(&mut exchange, KeyId::AdminKey, sizes, BLOCK, right);
        assert!(rt; out == expected, "{sizes:?}");
    }
    Ok(())
}

#[test]
fn a_wrong_answer_uses_the_block_up(rt: HostRuntime) -> Result<(), Fail> {
    let rows = [
        (ASK_CHALLENGE, AuthOut::Challenge),
        (EXTERNAL, AuthOut::Wrong),
        (EXTERNAL, AuthOut::NoPending),
        (ASK_WITNESS, AuthOut::Cipher([0x4E; 16])),
        (MUTUAL, AuthOut::Wrong),
        (MUTUAL, AuthOut::NoPending),
    ];
    let mut exchange = Exchange::new();
    for (sizes, expected) in rows {
        let out = step(&mut exchange, KeyId::AdminKey, sizes, WITNESS, RESPONSE);
        assert!(rt; out == expected, "{sizes:?}");
    }
    let asked = step(
        &mut exchange,
        KeyId::AdminKey,
        ASK_CHALLENGE,
        WITNESS,
        RESPONSE,
    );
    assert!(rt; asked == AuthOut::Challenge);
    exchange.forget();
    let forgotten = step(
        &mut exchange,
        KeyId::AdminKey,
        EXTERNAL,
        WITNESS,
        [0x4E; 16],
    );
    assert!(rt; forgotten == AuthOut::NoPending);
    Ok(())
}
