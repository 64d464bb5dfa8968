// PUT DATA.
ghost use Rattle.std.specs.Prelude.{◌≢◌, ◌↔◌, List, [], ◌∷◌, ℕ, IsTrue, IfOk, OnErr};
ghost use Rattle.piv_objects.specs.Forms.{IsObjectTag, IsPut, Put, Object, put_of, ArePartsOf};

use crate::elements::{only, pair};
use crate::malformed::Malformed;

/// What PUT DATA carries, lent from its data field.
#[derive(Clone, Copy, Debug)]
pub enum PutFields<'a> {
    /// An object's tag and its new value.
    Object { tag: &'a [u8], value: &'a [u8] },
    /// The value of the Discovery object.
    Discovery { value: &'a [u8] },
}

// The tag of an object that isn't Discovery.
fn is_other_tag(tag: &[u8]) -> bool
    ensures { IsTrue result ↔ (IsObjectTag tag.now × (tag.now ≢ 0x7E ∷ [])) }
{
    match tag {
        [0x7E] => false,
        [_] | [_, _] | [_, _, _] => true,
        _ => false,
    }
}

fn object_fields(body: &[u8]) -> Result<PutFields<'_>, Malformed>
    ensures ok { IfOk result (λ put. IsPut body.now (put_of put)) }
    ensures err { OnErr result ((tag value : List ℕ) → ¬ IsPut body.now (Object tag value)) }
{
    let (tag, value) = pair(body, 0x5C, 0x53)?;
    if is_other_tag(tag) {
        Ok(PutFields::Object { tag, value })
    } else {
        Err(Malformed)
    }
}

/// The fields of PUT DATA: an element 5C with an object's tag, which isn't 7E, and then an element
/// 53 with its value; or one element 7E, the Discovery object, alone. The form of its value is for
/// `discovery` to read (SP 800-73-4 part 2, PUT DATA).
pub fn put_fields(body: &[u8]) -> Result<PutFields<'_>, Malformed>
    ensures ok { IfOk result (λ put. IsPut body.now (put_of put)) }
    ensures err { OnErr result ((put : Put) → ¬ IsPut body.now put) }
    ensures lent { IfOk result (λ put. ArePartsOf body.now (put_of put)) }
{
    match only(body, 0x7E) {
        Ok(value) => Ok(PutFields::Discovery { value }),
        Err(_) => object_fields(body),
    }
}
