// What the fields of a dynamic authentication template ask.
ghost use Rattle.std.specs.Prelude.{◌≡◌, Option, IfSome};
ghost use Rattle.std.specs.Option.{option_copied};

use piv_model::{AuthFields, KeyId};

/// What a GENERAL AUTHENTICATE asks.
#[derive(Clone, Copy, PartialEq, Eq, Debug)]
pub enum AuthAsk {
    /// A challenge to be enciphered under the card authentication key.
    Internal([u8; 16]),
    /// A challenge, which the client enciphers.
    Challenge,
    /// The challenge enciphered.
    External([u8; 16]),
    /// A Witness, which the client deciphers.
    Witness,
    /// The Witness deciphered, and a challenge to be enciphered under the card management key.
    Mutual([u8; 16], [u8; 16]),
}

// A field that has 16 bytes or none.
#[derive(Clone, Copy)]
enum Field {
    Absent,
    Empty,
    Sixteen([u8; 16]),
}

ghost use Rattle.auth_protocol.specs.Meant.{HasFieldSize, asked_by};
ghost use Rattle.auth_protocol.specs.Sizes.{IsField};

fn field_of(value: Option<&[u8]>) -> Field
    requires { HasFieldSize value }
    ensures { IsField (option_copied value.entry) result }
{
    match value {
        None => Field::Absent,
        Some(bytes) => match bytes.try_into() {
            Ok(sixteen) => Field::Sixteen(sixteen),
            Err(_) => Field::Empty,
        },
    }
}

/// What these fields of a key ask, each of 0 or 16 bytes; nothing where they have no form.
pub fn meaning(key: KeyId, fields: &AuthFields<'_>) -> Option<AuthAsk>
    requires f80 { HasFieldSize fields.now.f80 }
    requires f81 { HasFieldSize fields.now.f81 }
    requires f82 { HasFieldSize fields.now.f82 }
    ensures { result ≡ asked_by key fields.now }
{
    let (f80, f81, f82) = (
        field_of(fields.f80),
        field_of(fields.f81),
        field_of(fields.f82),
    );
    match key {
        KeyId::CardAuth => match (f80, f81, f82) {
            (Field::Absent, Field::Sixteen(x), Field::Empty) => Some(AuthAsk::Internal(x)),
            _ => None,
        },
        KeyId::AdminKey => match (f80, f81, f82) {
            (Field::Absent, Field::Empty, Field::Absent) => Some(AuthAsk::Challenge),
            (Field::Absent, Field::Absent, Field::Sixteen(x)) => Some(AuthAsk::External(x)),
            (Field::Empty, Field::Absent, Field::Absent) => Some(AuthAsk::Witness),
            (Field::Sixteen(w), Field::Sixteen(x), Field::Absent | Field::Empty) => {
                Some(AuthAsk::Mutual(w, x))
            }
            _ => None,
        },
    }
}
