// A card of a scene, before its limits are tested.
ghost use Rattle.std.specs.Prelude.{◌≡◌, option_map, option_copied, None};
ghost use Rattle.toml.specs.Data.{get_member};
ghost use Rattle.toml.specs.View.{view, array_view, table_view};
ghost use Rattle.scene_table.specs.Answers.{GivesBy};
ghost use Rattle.scene_table.specs.Names.{fresh};
ghost use Rattle.scene_table.specs.Readings.{or_default};
ghost use Rattle.scene_cards.specs.Cards.{reader_names, card_names, reader_value, are_readers as are_readers_of, card_name as card_name_of, card_of, is_named as is_named_of};
ghost use Rattle.scene_cards.specs.Views.{card_view};

use crate::cards::Cards;
use crate::losses::losses_of;
use crate::objects::{RawObject, objects_of};
use crate::parts::{RawParts, read_parts};
use line_words::LineFault;
use nvm_device::Loss;
use scene_table::{find, find_items, name_value};
use std::alloc::Global;
use toml::{Table, Value};

/// A card, whose names are lent from the document.
#[derive(Drop)]
pub struct RawCard<'a> {
    pub name: &'a str,
    pub contact: Option<&'a str>,
    pub contactless: Option<&'a str>,
    pub parts: RawParts,
    pub objects: Vec<RawObject>,
    pub losses: Vec<Loss>,
}

fn is_named(other: Option<&str>, name: &str) -> bool
    ensures { result ≡ is_named_of (option_copied other.entry) name.now }
{
    match other {
        Some(other) => other == name,
        None => false,
    }
}

fn fresh_reader<'a>(before: &Cards<'_>, name: &'a str) -> Option<&'a str>
    ensures { option_copied result ≡ fresh (reader_names before.now) name.now }
{
    if before.has_reader(name) {
        None
    } else {
        Some(name)
    }
}

fn fresh_name<'a>(before: &Cards<'_>, name: &'a str) -> Option<&'a str>
    ensures { option_copied result ≡ fresh (card_names before.now) name.now }
{
    if before.has_card(name) {
        None
    } else {
        Some(name)
    }
}

// The reader of a key that may be absent, which no card before has.
fn read_reader<'a>(
    before: &Cards<'_>,
    table: &'a Table,
    key: &str,
) -> Result<Option<&'a str>, LineFault>
    ensures { GivesBy option_copied result (or_default None (reader_value before.now) (get_member key.now (table_view table.now))) }
{
    match find(table, key) {
        None => Ok(None),
        Some(value) => match name_value(value) {
            Some(name) => match fresh_reader(before, name) {
                Some(name) => Ok(Some(name)),
                None => Err(LineFault::Malformed),
            },
            None => Err(LineFault::Malformed),
        },
    }
}

// A name that no card before has.
fn read_name<'a>(before: &Cards<'_>, table: &'a Table) -> Result<&'a str, LineFault>
    ensures { GivesBy (λ n. n.now) result (card_name_of before.now (table_view table.now)) }
{
    let Some(value) = find(table, "name") else {
        return Err(LineFault::Malformed);
    };
    let Some(name) = name_value(value) else {
        return Err(LineFault::Malformed);
    };
    match fresh_name(before, name) {
        Some(name) => Ok(name),
        None => Err(LineFault::Malformed),
    }
}

fn are_readers(contact: Option<&str>, contactless: Option<&str>) -> bool
    ensures { result ≡ are_readers_of (option_copied contact.entry) (option_copied contactless.entry) }
{
    match contact {
        Some(name) => !is_named(contactless, name),
        None => match contactless {
            Some(_) => true,
            None => false,
        },
    }
}

/// A card behind others.
pub(crate) fn read_card<'a>(
    alloc: Global,
    before: &Cards<'_>,
    value: &'a Value,
) -> Result<RawCard<'a>, LineFault>
    ensures { GivesBy card_view result (card_of before.now (view value.now)) }
{
    let Some(table) = value.as_table() else {
        return Err(LineFault::Malformed);
    };
    let name = read_name(before, table)?;
    let contact = read_reader(before, table, "contact")?;
    let contactless = read_reader(before, table, "contactless")?;
    let parts = read_parts(alloc, table)?;
    let Some(objects) = find_items(table, "objects") else {
        return Err(LineFault::Malformed);
    };
    let objects = objects_of(alloc, parts.global.is_some(), objects)?;
    let Some(losses) = find_items(table, "losses") else {
        return Err(LineFault::Malformed);
    };
    let losses = losses_of(alloc, losses)?;
    if are_readers(contact, contactless) {
        Ok(RawCard {
            name,
            contact,
            contactless,
            parts,
            objects,
            losses,
        })
    } else {
        Err(LineFault::Malformed)
    }
}
