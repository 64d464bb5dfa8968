// Values of a document.
ghost use Rattle.std.specs.Prelude.{◌≡◌, option_map, option_copied};
ghost use Rattle.toml.specs.Data.{get_member};
ghost use Rattle.toml.specs.View.{view, array_view, table_view};
ghost use Rattle.line_words.specs.Words.{Gives};
ghost use Rattle.scene_table.specs.Readings.{from_one as from_one_of, from_zero as from_zero_of, or_default, items_or_none, all_strings as all_strings_of, all_tables as all_tables_of};
ghost use Rattle.scene_table.specs.Values.{name_value as name_value_of};
ghost use Rattle.scene_table.specs.Lent.{lent_items};

use line_words::{LineFault, is_name};
use toml::value::Array;
use toml::{Table, Value};

/// A whole number from 1.
pub fn from_one(value: &Value) -> Option<u64>
    ensures { result ≡ from_one_of (view value.now) }
{
    match value.as_integer() {
        Some(number) => {
            if number >= 1 {
                Some(number.unsigned_abs())
            } else {
                None
            }
        }
        None => None,
    }
}

/// A whole number from 0.
pub fn from_zero(value: &Value) -> Option<u64>
    ensures { result ≡ from_zero_of (view value.now) }
{
    match value.as_integer() {
        Some(number) => {
            if number >= 0 {
                Some(number.unsigned_abs())
            } else {
                None
            }
        }
        None => None,
    }
}

/// A whole number from 1, or another where the key is absent.
pub fn from_one_or(table: &Table, key: &str, absent: u64) -> Result<u64, LineFault>
    ensures { Gives result (or_default absent from_one_of (get_member key.now (table_view table.now))) }
{
    match find(table, key) {
        None => Ok(absent),
        Some(value) => match from_one(value) {
            Some(number) => Ok(number),
            None => Err(LineFault::Malformed),
        },
    }
}

/// A name.
pub fn name_value(value: &Value) -> Option<&str>
    ensures { option_copied result ≡ name_value_of (view value.now) }
{
    match value.as_str() {
        Some(text) => { if is_name(text) { Some(text) } else { None } }
        None => None,
    }
}

/// Whether each item is a string.
pub fn all_strings(items: &Array) -> bool
    ensures { result ≡ all_strings_of (array_view items.now) }
{
    for item in items.iter() {
        if !item.is_str() {
            return false;
        }
    }
    true
}

/// Whether each item is a table.
pub fn all_tables(items: &Array) -> bool
    ensures { result ≡ all_tables_of (array_view items.now) }
{
    for item in items.iter() {
        if !item.is_table() {
            return false;
        }
    }
    true
}

/// The value of a key.
pub fn find<'a>(table: &'a Table, key: &str) -> Option<&'a Value>
    ensures { option_map (λ v. view v.now) result ≡ get_member key.now (table_view table.now) }
{
    table.get(key)
}

/// The items of a key that may be absent. None where its value is no array.
#[tactic(auto, unfolding(crate::specs::Readings::each_after))]
pub fn find_items<'a>(table: &'a Table, key: &str) -> Option<Option<&'a Array>>
    ensures { option_map lent_items result ≡ items_or_none (get_member key.now (table_view table.now)) }
{
    match find(table, key) {
        None => Some(None),
        Some(value) => match value.as_array() {
            Some(items) => Some(Some(items)),
            None => None,
        },
    }
}
