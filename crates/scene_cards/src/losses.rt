// The losses that a card's plan names.
ghost use Rattle.std.specs.Prelude.{◌≡◌, None, codes};
ghost use Rattle.toml.specs.Data.{get_member};
ghost use Rattle.toml.specs.View.{view, array_view, table_view};
ghost use Rattle.line_words.specs.Words.{Gives};
ghost use Rattle.scene_table.specs.Answers.{GivesBy};
ghost use Rattle.scene_table.specs.Lent.{lent_items};
ghost use Rattle.scene_table.specs.Readings.{or_default};
ghost use Rattle.scene_cards.specs.Losses.{later as later_of, loss_write as loss_write_of, pattern_value as pattern_value_of, how_of as how_of_words, loss_of, all_losses};

use line_words::LineFault;
use nvm_device::{How, Loss, Pattern};
use scene_table::{digits, find, from_one};
use std::alloc::Global;
use toml::value::Array;
use toml::{Table, Value};

// A number behind that of the last loss.
fn later(before: &[Loss], write: u64) -> Option<u64>
    ensures { result ≡ later_of before.now write }
{
    match before.last() {
        Some(last) => {
            if last.write < write {
                Some(write)
            } else {
                None
            }
        }
        None => Some(write),
    }
}

fn loss_write(before: &[Loss], table: &Table) -> Option<u64>
    ensures { result ≡ loss_write_of before.now (table_view table.now) }
{
    let write = from_one(find(table, "write")?)?;
    later(before, write)
}

fn pattern_value(alloc: Global, value: &Value) -> Result<Option<Pattern>, LineFault>
    ensures { Gives result (pattern_value_of (view value.now)) }
{
    let bytes = digits(alloc, value)?;
    match bytes.as_slice().len() {
        1..=16 => Ok(Some(Pattern::new(bytes.as_slice()))),
        _ => Err(LineFault::Malformed),
    }
}

fn read_pattern(alloc: Global, table: &Table) -> Result<Option<Pattern>, LineFault>
    ensures { Gives result (or_default None pattern_value_of (get_member (codes "pattern") (table_view table.now))) }
{
    match find(table, "pattern") {
        None => Ok(None),
        Some(value) => pattern_value(alloc, value),
    }
}

fn how_of(kind: &str, pattern: Option<Pattern>) -> Option<How>
    ensures { result ≡ how_of_words kind.now pattern }
{
    match pattern {
        None => match kind {
            "before" => Some(How::Before),
            "after" => Some(How::After),
            _ => None,
        },
        Some(pattern) => match kind {
            "torn" => Some(How::Torn(pattern)),
            _ => None,
        },
    }
}

// A loss behind others.
fn read_loss(alloc: Global, before: &[Loss], value: &Value) -> Result<Loss, LineFault>
    ensures { Gives result (loss_of before.now (view value.now)) }
{
    let Some(table) = value.as_table() else {
        return Err(LineFault::Malformed);
    };
    let Some(write) = loss_write(before, table) else {
        return Err(LineFault::Malformed);
    };
    let Some(kind) = find(table, "kind") else {
        return Err(LineFault::Malformed);
    };
    let Some(kind) = kind.as_str() else {
        return Err(LineFault::Malformed);
    };
    let pattern = read_pattern(alloc, table)?;
    match how_of(kind, pattern) {
        Some(how) => Ok(Loss { write, how }),
        None => Err(LineFault::Malformed),
    }
}

// The losses of an array.
fn read_losses(alloc: Global, items: &Array) -> Result<Vec<Loss>, LineFault>
    ensures { GivesBy (λ v. v.items) result (all_losses (array_view items.now)) }
{
    let mut losses = Vec::new(alloc);
    for item in items.iter() {
        match read_loss(alloc, losses.as_slice(), item) {
            Ok(loss) => match losses.push(loss) {
                Ok(()) => (),
                Err(_) => return Err(LineFault::NoMemory),
            },
            Err(fault) => return Err(fault),
        }
    }
    Ok(losses)
}

/// The losses of a key that may be absent.
#[tactic(auto, unfolding(scene_table::specs::Readings::each_after))]
pub(crate) fn losses_of(alloc: Global, items: Option<&Array>) -> Result<Vec<Loss>, LineFault>
    ensures { GivesBy (λ v. v.items) result (all_losses (lent_items items.entry)) }
{
    match items {
        Some(items) => read_losses(alloc, items),
        None => Ok(Vec::new(alloc)),
    }
}
