// A cursor over elements.
ghost use Rattle.std.specs.Prelude.{◌≡◌, ◌≤◌, ◌↔◌, [], length, None, Ok, Err, IfOk, IfSome, IfErr, OnErr};
ghost use Rattle.ber_tlv.specs.declared.fault.TlvKind.{TlvKind};
ghost use Rattle.ber_tlv.specs.Elements.{BeginsWith};
ghost use Rattle.ber_tlv.specs.Faults.{NoneBegins, IsFault};
ghost use Rattle.ber_tlv.specs.Cursors.{Reading, left, before, element_of, fault_at};

use crate::fault::TlvFault;
use crate::reading::read_element;
use std::marker::Model;

/// An element, lent from the input: the tag's bytes as one number, the highest first, and its
/// value.
#[derive(Clone, Copy, Debug)]
pub struct Tlv<'a> {
    pub tag: u32,
    pub value: &'a [u8],
}

/// A place between the elements of the bytes that it was given.
#[derive(Drop)]
pub struct Cursor<'a> {
    bytes: &'a [u8],
    at: usize,
}

impl<'a> Model for Cursor<'a> {
    ghost Value = { Reading };

    ghost view = { λ c. record { bytes = c.bytes.now; at = c.at } };

    ghost invariant = { λ c. c.at ≤ length c.bytes.now };
}

impl<'a> Cursor<'a> {
    /// A cursor before the first of the bytes.
    pub fn new(bytes: &'a [u8]) -> Cursor<'a>
        ensures { result ≡ record { bytes = bytes.now; at = 0 } }
    {
        Cursor { bytes, at: 0 }
    }

    /// The bytes that no element was read from yet.
    pub fn rest(&self) -> &'a [u8]
        ensures { result.now ≡ left self.now }
    {
        &self.bytes[self.at..]
    }

    /// The next element, or None at the end of the bytes (ISO/IEC 7816-4, BER-TLV data objects).
    /// Where no element begins, the cursor stays there.
    pub fn next(&mut self) -> Result<Option<Tlv<'a>>, TlvFault>
        ensures given { self.new.bytes ≡ self.old.bytes }
        ensures found { IfOk result (λ next. IfSome next (λ tlv.
            BeginsWith (left self.old) (element_of tlv) (left self.new))) }
        // The value is lent: it stands right before the new place.
        ensures lent { IfOk result (λ next. IfSome next (λ tlv.
            tlv.value.now ≡ before self.new (length tlv.value.now))) }
        ensures end { (result ≡ Ok None) ↔ (left self.old ≡ []) }
        ensures none { result ≡ Ok None → self.new ≡ self.old }
        ensures err { OnErr result (NoneBegins (left self.old)) }
        ensures at { IfErr result (λ fault. fault.at ≡ self.old.at) }
        ensures kind { (k : TlvKind) →
            (result ≡ Err (fault_at self.old.at k)) ↔ IsFault k (left self.old) }
        ensures same { OnErr result (self.new ≡ self.old) }
    {
        let bytes = self.rest();
        if bytes.is_empty() {
            return Ok(None);
        }
        match read_element(bytes) {
            Ok((tlv, rest)) => {
                self.at = self.bytes.len() - rest.len();
                Ok(Some(tlv))
            }
            Err(kind) => Err(TlvFault { at: self.at, kind }),
        }
    }
}
