// The dynamic authentication template of GENERAL AUTHENTICATE.
ghost use Rattle.std.specs.Prelude.{[], ◌∷◌, IfOk, OnErr};
ghost use Rattle.ber_tlv.specs.Cursors.{element_of};
ghost use Rattle.piv_objects.specs.Templates.{Fields, fields_of, Adds, Holds, IsTemplate, FieldsStandIn};

use crate::elements::only;
use crate::malformed::Malformed;
use ber_tlv::{Cursor, Tlv};
use piv_model::AuthFields;

// The fields with one more, which is not there yet.
fn with_field<'a>(found: AuthFields<'a>, field: Tlv<'a>) -> Result<AuthFields<'a>, Malformed>
    ensures ok { IfOk result (λ fields.
        Adds (fields_of found.entry) (element_of field.entry ∷ []) (fields_of fields)) }
    ensures err { OnErr result ((fields : Fields) →
        ¬ Adds (fields_of found.entry) (element_of field.entry ∷ []) fields) }
{
    let value = Some(field.value);
    if !field.value.is_empty() && field.value.len() != 16 {
        return Err(Malformed);
    }
    match field.tag {
        0x80 => match found.f80 {
            None => Ok(AuthFields {
                f80: value,
                ..found
            }),
            Some(_) => Err(Malformed),
        },
        0x81 => match found.f81 {
            None => Ok(AuthFields {
                f81: value,
                ..found
            }),
            Some(_) => Err(Malformed),
        },
        0x82 => match found.f82 {
            None => Ok(AuthFields {
                f82: value,
                ..found
            }),
            Some(_) => Err(Malformed),
        },
        _ => Err(Malformed),
    }
}

// The fields that the bytes are.
fn read_fields(bytes: &[u8]) -> Result<AuthFields<'_>, Malformed>
    ensures ok { IfOk result (λ fields. Holds bytes.now (fields_of fields)) }
    ensures err { OnErr result ((fields : Fields) → ¬ Holds bytes.now fields) }
{
    let mut found = AuthFields {
        f80: None,
        f81: None,
        f82: None,
    };
    let mut cursor = Cursor::new(bytes);
    loop {
        match cursor.next() {
            Ok(Some(field)) => match with_field(found, field) {
                Ok(fields) => found = fields,
                Err(_) => return Err(Malformed),
            },
            Ok(None) => return Ok(found),
            Err(_) => return Err(Malformed),
        }
    }
}

/// The fields of a dynamic authentication template: one element 7C that holds elements 80, 81 and
/// 82 in any order, each at most once and each of 0 or 16 bytes
/// (SP 800-73-4 part 2, GENERAL AUTHENTICATE).
pub fn auth_template(body: &[u8]) -> Result<AuthFields<'_>, Malformed>
    ensures ok { IfOk result (λ fields. IsTemplate body.now (fields_of fields)) }
    ensures err { OnErr result ((fields : Fields) → ¬ IsTemplate body.now fields) }
    ensures lent { IfOk result (λ fields. FieldsStandIn body.now (fields_of fields)) }
{
    read_fields(only(body, 0x7C)?)
}
