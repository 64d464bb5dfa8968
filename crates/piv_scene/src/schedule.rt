// The schedule of a scene.
ghost use Rattle.std.specs.Prelude.{◌≡◌, []};
ghost use Rattle.toml.specs.View.{view, array_view, table_view};
ghost use Rattle.piv_model.specs.declared.places.Where.TheVariants as bad;
ghost use Rattle.scene_table.specs.Answers.{GivesPlace};
ghost use Rattle.scene_table.specs.Readings.{each_after};
ghost use Rattle.scene_cards.specs.Cards.{bad_item};
ghost use Rattle.piv_scene.specs.Documents.{schedule_at};
ghost use Rattle.piv_scene.specs.Scripts.{schedule_place as schedule_place_of};

use piv_model::Where;
use scene_table::{SceneFault, find_items, from_zero};
use std::alloc::Global;
use toml::value::Array;
use toml::{Table, Value};

// The place of a script.
fn schedule_place(scripts: usize, value: &Value) -> Option<u64>
    ensures { result ≡ schedule_place_of scripts [] (view value.now) }
{
    match from_zero(value) {
        Some(place) => {
            if place < scripts as u64 {
                Some(place)
            } else {
                None
            }
        }
        None => None,
    }
}

// The places of an array.
fn read_places(alloc: Global, scripts: usize, items: &Array) -> Result<Vec<u32>, SceneFault>
    ensures { GivesPlace (λ v. v.items) result (bad_item (λ n. bad.Schedule) (each_after (schedule_place_of scripts) [] (array_view items.now))) }
{
    let mut places = Vec::new(alloc);
    for item in items.iter() {
        match schedule_place(scripts, item) {
            Some(place) => match u32::try_from(place) {
                Ok(number) => match places.push(number) {
                    Ok(()) => (),
                    Err(_) => return Err(SceneFault::NoMemory),
                },
                Err(_) => return Err(SceneFault::NoMemory),
            },
            None => return Err(SceneFault::Bad(Where::Schedule)),
        }
    }
    Ok(places)
}

/// The schedule of a document.
#[tactic(auto, unfolding(scene_table::specs::Readings::each_after))]
pub(crate) fn read_schedule(
    alloc: Global,
    scripts: usize,
    doc: &Table,
) -> Result<Vec<u32>, SceneFault>
    ensures { GivesPlace (λ v. v.items) result (schedule_at scripts (table_view doc.now)) }
{
    match find_items(doc, "schedule") {
        Some(Some(items)) => read_places(alloc, scripts, items),
        Some(None) => Ok(Vec::new(alloc)),
        None => Err(SceneFault::Bad(Where::Schedule)),
    }
}
