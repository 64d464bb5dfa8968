// The objects of a card, before their limits are tested.
ghost use Rattle.std.specs.Prelude.{◌≡◌, ◌==◌, map};
ghost use Rattle.std.specs.List.{list_any};
ghost use Rattle.toml.specs.View.{view, array_view};
ghost use Rattle.piv_model.specs.Forms.{is_discovery};
ghost use Rattle.scene_table.specs.Answers.{GivesBy};
ghost use Rattle.scene_table.specs.Lent.{lent_items};
ghost use Rattle.scene_cards.specs.Views.{object_view, value_view, option_value};
ghost use Rattle.scene_cards.specs.Objects.{object_value as object_value_of, object_of, fresh_object as fresh_object_of, formed as formed_of, has_form as has_form_of, all_objects, value_size as value_size_of};

use line_words::LineFault;
use piv_model::{ObjectId, object_by_tag};
use piv_objects::discovery;
use scene_table::{digits, find, from_one, one_byte, some_digits};
use std::alloc::Global;
use toml::Value;
use toml::value::Array;

/// A value as it is written, or so many equal bytes.
#[derive(Drop)]
pub enum RawValue {
    Given(Vec<u8>),
    Filled(u64, u8),
}

/// An object and its value.
#[derive(Drop)]
pub struct RawObject {
    pub id: ObjectId,
    pub value: RawValue,
}

fn object_value(
    alloc: Global,
    value: Option<&Value>,
    size: Option<&Value>,
    fill: Option<&Value>,
) -> Result<RawValue, LineFault>
    ensures { GivesBy value_view result (object_value_of (option_value value.entry) (option_value size.entry) (option_value fill.entry)) }
{
    match (value, size, fill) {
        (Some(value), None, None) => Ok(RawValue::Given(some_digits(alloc, value)?)),
        (None, Some(size), Some(fill)) => match from_one(size) {
            Some(size) => Ok(RawValue::Filled(size, one_byte(alloc, fill)?)),
            None => Err(LineFault::Malformed),
        },
        _ => Err(LineFault::Malformed),
    }
}

/// The bytes of a value.
pub(crate) fn value_size(value: &RawValue) -> u64
    ensures { result ≡ value_size_of (value_view value.now) }
{
    match value {
        RawValue::Given(bytes) => bytes.as_slice().len() as u64,
        RawValue::Filled(size, _) => *size,
    }
}

fn has_place(objects: &[RawObject], place: u8) -> bool
    ensures { result ≡ list_any (λ o. o.id == place) objects.now }
{
    objects.iter().any(|object| object.id.place() == place)
}

// A Discovery Object of a card with or without a Global PIN.
#[tactic(auto, unfolding(piv_model::specs::Forms::is_discovery))]
fn is_discovery_here(has_global: bool, value: &[u8]) -> bool
    ensures { result ≡ is_discovery has_global value.now }
{
    match discovery(value) {
        Ok(policy) => has_global || policy == [0x40, 0x00],
        Err(_) => false,
    }
}

// Equal bytes are no Discovery Object.
#[tactic(auto, using(crate::proofs::ObjectLaws::equal_bytes))]
fn has_form(has_global: bool, id: ObjectId, value: &RawValue) -> bool
    ensures { result ≡ has_form_of has_global id (value_view value.now) }
{
    if id != ObjectId::discovery() {
        return true;
    }
    match value {
        RawValue::Given(bytes) => is_discovery_here(has_global, bytes.as_slice()),
        RawValue::Filled(_, _) => false,
    }
}

// The object of a tag, if no other has it.
#[tactic(auto, using(crate::proofs::ObjectLaws::seen_places))]
fn fresh_object(before: &[RawObject], tag: &[u8]) -> Option<ObjectId>
    ensures { result ≡ fresh_object_of (map object_view before.now) tag.now }
{
    match object_by_tag(tag) {
        Some(id) => {
            if has_place(before, id.place()) {
                None
            } else {
                Some(id)
            }
        }
        None => None,
    }
}

fn formed(has_global: bool, id: ObjectId, value: RawValue) -> Result<RawObject, LineFault>
    ensures { GivesBy object_view result (formed_of has_global id (value_view value)) }
{
    if has_form(has_global, id, &value) {
        Ok(RawObject { id, value })
    } else {
        Err(LineFault::Malformed)
    }
}

// An object behind others.
fn read_object(
    alloc: Global,
    has_global: bool,
    before: &[RawObject],
    value: &Value,
) -> Result<RawObject, LineFault>
    ensures { GivesBy object_view result (object_of has_global (map object_view before.now) (view value.now)) }
{
    let Some(table) = value.as_table() else {
        return Err(LineFault::Malformed);
    };
    let Some(tag) = find(table, "tag") else {
        return Err(LineFault::Malformed);
    };
    let tag = digits(alloc, tag)?;
    let Some(id) = fresh_object(before, tag.as_slice()) else {
        return Err(LineFault::Malformed);
    };
    let value = object_value(
        alloc,
        find(table, "value"),
        find(table, "size"),
        find(table, "fill"),
    )?;
    formed(has_global, id, value)
}

// The objects of an array.
fn read_objects(alloc: Global, has_global: bool, items: &Array) -> Result<Vec<RawObject>, LineFault>
    ensures { GivesBy (λ v. map object_view v.items) result (all_objects has_global (array_view items.now)) }
{
    let mut objects = Vec::new(alloc);
    for item in items.iter() {
        match read_object(alloc, has_global, objects.as_slice(), item) {
            Ok(object) => match objects.push(object) {
                Ok(()) => (),
                Err(_) => return Err(LineFault::NoMemory),
            },
            Err(fault) => return Err(fault),
        }
    }
    Ok(objects)
}

/// The objects of a key that may be absent.
#[tactic(auto, unfolding(scene_table::specs::Readings::each_after))]
pub(crate) fn objects_of(
    alloc: Global,
    has_global: bool,
    items: Option<&Array>,
) -> Result<Vec<RawObject>, LineFault>
    ensures { GivesBy (λ v. map object_view v.items) result (all_objects has_global (lent_items items.entry)) }
{
    match items {
        Some(items) => read_objects(alloc, has_global, items),
        None => Ok(Vec::new(alloc)),
    }
}
