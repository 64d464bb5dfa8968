// The data objects of the card, by their places in the table (SP 800-73-4 part 1).
ghost use Rattle.std.specs.Prelude.{◌≡◌, ◌≤◌, ◌<◌, ℕ, length, map, position, slice_index_or, IfSome};
ghost use Rattle.std.specs.Str.{bytes_eq};
ghost use Rattle.piv_model.specs.Objects.{discovery_place, place_of, place_of_oid, row_at, read_rule_of, no_row};
ghost use Rattle.piv_model.specs.Rows.{row_of};
ghost use Rattle.piv_model.specs.declared.objects.Row.{Row};

use crate::kinds::Rule::{Always, Never, Pin};
use crate::kinds::{Interface, Rule};
use crate::limits::OBJECTS;
use std::marker::Model;

// A row of the table: an object's tag and identifier, and its rules for reading.
struct Row {
    tag: &'static [u8],
    oid: &'static str,
    contact: Rule,
    contactless: Rule,
}

#[rattlefmt::skip]
const TABLE: [Row; OBJECTS] = [
    Row { tag: &[0x5F, 0xC1, 0x07], oid: "2.16.840.1.101.3.7.1.219.0", contact: Always, contactless: Never },
    Row { tag: &[0x5F, 0xC1, 0x02], oid: "2.16.840.1.101.3.7.2.48.0", contact: Always, contactless: Always },
    Row { tag: &[0x5F, 0xC1, 0x05], oid: "2.16.840.1.101.3.7.2.1.1", contact: Always, contactless: Never },
    Row { tag: &[0x5F, 0xC1, 0x03], oid: "2.16.840.1.101.3.7.2.96.16", contact: Pin, contactless: Never },
    Row { tag: &[0x5F, 0xC1, 0x06], oid: "2.16.840.1.101.3.7.2.144.0", contact: Always, contactless: Never },
    Row { tag: &[0x5F, 0xC1, 0x08], oid: "2.16.840.1.101.3.7.2.96.48", contact: Pin, contactless: Never },
    Row { tag: &[0x5F, 0xC1, 0x01], oid: "2.16.840.1.101.3.7.2.5.0", contact: Always, contactless: Always },
    Row { tag: &[0x5F, 0xC1, 0x0A], oid: "2.16.840.1.101.3.7.2.1.0", contact: Always, contactless: Never },
    Row { tag: &[0x5F, 0xC1, 0x0B], oid: "2.16.840.1.101.3.7.2.1.2", contact: Always, contactless: Never },
    Row { tag: &[0x5F, 0xC1, 0x09], oid: "2.16.840.1.101.3.7.2.48.1", contact: Pin, contactless: Never },
    Row { tag: &[0x7E], oid: "2.16.840.1.101.3.7.2.96.80", contact: Always, contactless: Always },
    Row { tag: &[0x5F, 0xC1, 0x0C], oid: "2.16.840.1.101.3.7.2.96.96", contact: Always, contactless: Never },
    Row { tag: &[0x5F, 0xC1, 0x0D], oid: "2.16.840.1.101.3.7.2.16.1", contact: Always, contactless: Never },
    Row { tag: &[0x5F, 0xC1, 0x0E], oid: "2.16.840.1.101.3.7.2.16.2", contact: Always, contactless: Never },
    Row { tag: &[0x5F, 0xC1, 0x0F], oid: "2.16.840.1.101.3.7.2.16.3", contact: Always, contactless: Never },
    Row { tag: &[0x5F, 0xC1, 0x10], oid: "2.16.840.1.101.3.7.2.16.4", contact: Always, contactless: Never },
    Row { tag: &[0x5F, 0xC1, 0x11], oid: "2.16.840.1.101.3.7.2.16.5", contact: Always, contactless: Never },
    Row { tag: &[0x5F, 0xC1, 0x12], oid: "2.16.840.1.101.3.7.2.16.6", contact: Always, contactless: Never },
    Row { tag: &[0x5F, 0xC1, 0x13], oid: "2.16.840.1.101.3.7.2.16.7", contact: Always, contactless: Never },
    Row { tag: &[0x5F, 0xC1, 0x14], oid: "2.16.840.1.101.3.7.2.16.8", contact: Always, contactless: Never },
    Row { tag: &[0x5F, 0xC1, 0x15], oid: "2.16.840.1.101.3.7.2.16.9", contact: Always, contactless: Never },
    Row { tag: &[0x5F, 0xC1, 0x16], oid: "2.16.840.1.101.3.7.2.16.10", contact: Always, contactless: Never },
    Row { tag: &[0x5F, 0xC1, 0x17], oid: "2.16.840.1.101.3.7.2.16.11", contact: Always, contactless: Never },
    Row { tag: &[0x5F, 0xC1, 0x18], oid: "2.16.840.1.101.3.7.2.16.12", contact: Always, contactless: Never },
    Row { tag: &[0x5F, 0xC1, 0x19], oid: "2.16.840.1.101.3.7.2.16.13", contact: Always, contactless: Never },
    Row { tag: &[0x5F, 0xC1, 0x1A], oid: "2.16.840.1.101.3.7.2.16.14", contact: Always, contactless: Never },
    Row { tag: &[0x5F, 0xC1, 0x1B], oid: "2.16.840.1.101.3.7.2.16.15", contact: Always, contactless: Never },
    Row { tag: &[0x5F, 0xC1, 0x1C], oid: "2.16.840.1.101.3.7.2.16.16", contact: Always, contactless: Never },
    Row { tag: &[0x5F, 0xC1, 0x1D], oid: "2.16.840.1.101.3.7.2.16.17", contact: Always, contactless: Never },
    Row { tag: &[0x5F, 0xC1, 0x1E], oid: "2.16.840.1.101.3.7.2.16.18", contact: Always, contactless: Never },
    Row { tag: &[0x5F, 0xC1, 0x1F], oid: "2.16.840.1.101.3.7.2.16.19", contact: Always, contactless: Never },
    Row { tag: &[0x5F, 0xC1, 0x20], oid: "2.16.840.1.101.3.7.2.16.20", contact: Always, contactless: Never },
    Row { tag: &[0x5F, 0xC1, 0x21], oid: "2.16.840.1.101.3.7.2.16.21", contact: Pin, contactless: Never },
];

// The place of the Discovery Object.
const DISCOVERY: u8 = 10;

/// A data object: its place, 0 to 32, in the table of objects.
#[derive(Clone, Copy, PartialEq, Eq, Debug)]
pub struct ObjectId {
    place: u8,
}

impl Model for ObjectId {
    ghost Value = { ℕ };

    ghost view = { λ o. o.place };

    ghost invariant = { λ o. o.place ≤ 32 };

    ghost inverse = { λ n. record { place = n } };
}

impl ObjectId {
    // The object of a place.
    pub(crate) fn at(place: u8) -> ObjectId
        requires { place ≤ 32 }
        ensures { result ≡ place }
    {
        ObjectId { place }
    }

    /// The Discovery Object.
    pub fn discovery() -> ObjectId
        ensures { result ≡ discovery_place }
    {
        ObjectId::at(DISCOVERY)
    }

    /// The object's place in the table.
    pub fn place(self) -> u8
        ensures value { result ≡ self }
        ensures small { result ≤ 32 }
    {
        self.place
    }
}

fn place_with_tag(rows: &[Row], tag: &[u8]) -> Option<usize>
    ensures first { result ≡ position (λ (row : Row). bytes_eq row.tag.now tag.now) rows.now }
    ensures within { IfSome result (λ place. place < length rows.now) }
{
    rows.iter().position(|row| row.tag == tag)
}

fn place_with_oid(rows: &[Row], oid: &str) -> Option<usize>
    ensures first { result ≡ position (λ (row : Row). bytes_eq row.oid.now oid.now) rows.now }
    ensures within { IfSome result (λ place. place < length rows.now) }
{
    rows.iter().position(|row| row.oid == oid)
}

fn row_at_place(rows: &[Row], place: u8) -> &Row
    requires { place < length rows.now }
    ensures { row_of result.now ≡ slice_index_or (map row_of rows.now) place no_row }
{
    &rows[place as usize]
}

#[tactic(auto, unfolding(crate::specs::Objects::row_at, crate::specs::Objects::object_table))]
fn row_with(id: ObjectId) -> &'static Row
    ensures { row_of result.now ≡ row_at id }
{
    row_at_place(&TABLE, id.place)
}

/// The object with this tag, which is given as its bytes.
#[tactic(auto, unfolding(crate::specs::Objects::place_of, crate::specs::Objects::object_table))]
pub fn object_by_tag(tag: &[u8]) -> Option<ObjectId>
    ensures { result ≡ place_of tag.now }
{
    match place_with_tag(&TABLE, tag) {
        Some(place) => Some(ObjectId { place: place as u8 }),
        None => None,
    }
}

/// The object with this object identifier, which is given as text.
#[tactic(auto, unfolding(crate::specs::Objects::place_of_oid, crate::specs::Objects::object_table))]
pub fn object_by_oid(oid: &str) -> Option<ObjectId>
    ensures { result ≡ place_of_oid oid.now }
{
    match place_with_oid(&TABLE, oid) {
        Some(place) => Some(ObjectId { place: place as u8 }),
        None => None,
    }
}

/// The bytes of an object's tag.
pub fn tag(id: ObjectId) -> &'static [u8]
    ensures { result.now ≡ (row_at id).tag }
{
    row_with(id).tag
}

/// The rule for reading an object on an interface.
pub fn read_rule(id: ObjectId, interface: Interface) -> Rule
    ensures { result ≡ read_rule_of id interface }
{
    match interface {
        Interface::Contact => row_with(id).contact,
        Interface::Contactless => row_with(id).contactless,
    }
}
