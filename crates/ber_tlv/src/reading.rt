// Reading one element from left to right.
ghost use Rattle.std.specs.Prelude.{◌≡◌, ◌≢◌, ◌↔◌, [], IfOk, OnErr};
ghost use Rattle.ber_tlv.specs.declared.fault.TlvKind.{TlvKind};
ghost use Rattle.ber_tlv.specs.Cursors.{element_of};
ghost use Rattle.ber_tlv.specs.Elements.{BeginsWith};
ghost use Rattle.ber_tlv.specs.Faults.{NoneBegins, IsFault};
ghost use Rattle.ber_tlv.specs.Reading.{tag_at, any_length_at, length_at, parts_at};
ghost use Rattle.ber_tlv.specs.Gives.{Gives, GivesParts};

use crate::cursor::Tlv;
use crate::fault::TlvKind;

// The largest length that is read.
const MOST: u32 = 65_535;

// A tag, its bytes as one number, and what follows it.
#[tactic(auto, unfolding(crate::specs::Reading::tag_at))]
fn read_tag(bytes: &[u8]) -> Result<(u32, &[u8]), TlvKind>
    ensures { Gives result (tag_at bytes.now) }
{
    match bytes {
        [] => Err(TlvKind::Short),
        [a, rest @ ..] if *a % 32 != 31 => Ok((u32::from(*a), rest)),
        [_] => Err(TlvKind::Short),
        [a, b, rest @ ..] if *b < 0x80 => Ok((0x100 * u32::from(*a) + u32::from(*b), rest)),
        [_, _] => Err(TlvKind::Short),
        [a, b, c, rest @ ..] if *c < 0x80 => {
            let front = 0x100 * u32::from(*a) + u32::from(*b);
            Ok((0x100 * front + u32::from(*c), rest))
        }
        [_, _, _, ..] => Err(TlvKind::TagLong),
    }
}

// A length of any form, also one that is too long.
fn read_any_length(bytes: &[u8]) -> Result<(u32, &[u8]), TlvKind>
    ensures { Gives result (any_length_at bytes.now) }
{
    match bytes {
        [] => Err(TlvKind::Short),
        [n, rest @ ..] if *n < 0x80 => Ok((u32::from(*n), rest)),
        [0x81, n, rest @ ..] => Ok((u32::from(*n), rest)),
        [0x82, a, b, rest @ ..] => Ok((0x100 * u32::from(*a) + u32::from(*b), rest)),
        [0x83, a, b, c, rest @ ..] => {
            let front = 0x100 * u32::from(*a) + u32::from(*b);
            Ok((0x100 * front + u32::from(*c), rest))
        }
        [0x81..=0x83, ..] => Err(TlvKind::Short),
        [_, ..] => Err(TlvKind::LengthBad),
    }
}

#[tactic(auto, unfolding(crate::specs::Reading::length_at))]
fn read_length(bytes: &[u8]) -> Result<(u32, &[u8]), TlvKind>
    ensures { Gives result (length_at bytes.now) }
{
    let (n, rest) = read_any_length(bytes)?;
    if n > MOST {
        return Err(TlvKind::LengthBad);
    }
    Ok((n, rest))
}

// The tag and the value of the element that the bytes begin with, and what follows it.
#[tactic(auto, unfolding(crate::specs::Reading::parts_at, crate::specs::Reading::value_at))]
fn read_parts(bytes: &[u8]) -> Result<(u32, &[u8], &[u8]), TlvKind>
    ensures { GivesParts result (parts_at bytes.now) }
{
    let (tag, rest) = read_tag(bytes)?;
    let (n, rest) = read_length(rest)?;
    let n = n as usize;
    if rest.len() < n {
        return Err(TlvKind::Short);
    }
    let (value, rest) = rest.split_at(n);
    Ok((tag, value, rest))
}

/// The element that the bytes begin with, and what follows it.
pub fn read_element(bytes: &[u8]) -> Result<(Tlv<'_>, &[u8]), TlvKind>
    requires { bytes.now ≢ [] }
    ensures found { IfOk result (λ x. BeginsWith bytes.now (element_of x.0) x.1.now) }
    ensures none { OnErr result (NoneBegins bytes.now) }
    ensures fault { (k : TlvKind) → (result ≡ Err k) ↔ IsFault k bytes.now }
{
    match read_parts(bytes) {
        Ok((tag, value, rest)) => Ok((Tlv { tag, value }, rest)),
        Err(kind) => Err(kind),
    }
}
