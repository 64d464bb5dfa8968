// One or two elements of known tags.
ghost use Rattle.std.specs.Prelude.{List, ℕ, [], ◌∷◌, IfOk, OnErr};
ghost use Rattle.ber_tlv.specs.Elements.{element, BeginsWith, AreElements};

use crate::malformed::Malformed;
use ber_tlv::Cursor;

/// The value of the element that the bytes begin with, and what follows it.
pub fn first(bytes: &[u8], tag: u32) -> Result<(&[u8], &[u8]), Malformed>
    ensures ok { IfOk result (λ x. BeginsWith bytes.now (element tag x.0.now) x.1.now) }
    ensures err { OnErr result ((value rest : List ℕ) →
        ¬ BeginsWith bytes.now (element tag value) rest) }
{
    let mut cursor = Cursor::new(bytes);
    match cursor.next() {
        Ok(Some(tlv)) => {
            if tlv.tag == tag {
                Ok((tlv.value, cursor.rest()))
            } else {
                Err(Malformed)
            }
        }
        Ok(None) => Err(Malformed),
        Err(_) => Err(Malformed),
    }
}

/// The value of the one element that the bytes are.
pub fn only(bytes: &[u8], tag: u32) -> Result<&[u8], Malformed>
    ensures ok { IfOk result (λ value. AreElements bytes.now (element tag value.now ∷ [])) }
    ensures err { OnErr result ((value : List ℕ) →
        ¬ AreElements bytes.now (element tag value ∷ [])) }
{
    let (value, rest) = first(bytes, tag)?;
    if rest.is_empty() {
        Ok(value)
    } else {
        Err(Malformed)
    }
}

/// The values of the two elements that the bytes are, in this order.
pub fn pair(bytes: &[u8], one: u32, other: u32) -> Result<(&[u8], &[u8]), Malformed>
    ensures ok { IfOk result (λ x.
        AreElements bytes.now (element one x.0.now ∷ element other x.1.now ∷ [])) }
    ensures err { OnErr result ((value following : List ℕ) →
        ¬ AreElements bytes.now (element one value ∷ element other following ∷ [])) }
{
    let (value, rest) = first(bytes, one)?;
    let following = only(rest, other)?;
    Ok((value, following))
}
