// The lines of a scene's scripts.
ghost use Rattle.std.specs.Prelude.{◌≡◌, ◌+◌, map, []};
ghost use Rattle.toml.specs.View.{view, array_view};
ghost use Rattle.piv_model.specs.declared.places.Where.TheVariants as bad;
ghost use Rattle.line_words.specs.Words.{Gives};
ghost use Rattle.scene_table.specs.Answers.{GivesPlace, IsPlaceUnlessMemory};
ghost use Rattle.scene_table.specs.Readings.{each_after};
ghost use Rattle.scene_cards.specs.Cards.{bad_item};
ghost use Rattle.piv_scene.specs.Documents.{with_lines, script_at, scripts_after};
ghost use Rattle.piv_scene.specs.Scripts.{is_known as is_known_of, scene_line as scene_line_of};
ghost use Rattle.piv_scene.specs.Views.{raw_view};

use crate::scripts::LentScript;
use line_words::LineFault;
use piv_model::Where;
use scene_cards::Cards;
use scene_table::SceneFault;
use script_line::{Line, Script, read_line};
use std::alloc::Global;
use toml::Value;
use toml::value::Array;

fn is_known(cards: &Cards<'_>, line: &Line) -> bool
    ensures { result ≡ is_known_of cards.now line.now }
{
    match line {
        Line::Reset { reader } => cards.has_reader(reader.as_str()),
        Line::Cut { card } => cards.has_card(card.as_str()),
        Line::Power { card } => cards.has_card(card.as_str()),
        _ => true,
    }
}

fn scene_line(alloc: Global, cards: &Cards<'_>, value: &Value) -> Result<Line, LineFault>
    ensures { Gives result (scene_line_of cards.now [] (view value.now)) }
{
    match value.as_str() {
        Some(text) => {
            let line = read_line(alloc, text)?;
            if is_known(cards, &line) {
                Ok(line)
            } else {
                Err(LineFault::Malformed)
            }
        }
        None => Err(LineFault::Malformed),
    }
}

// The line behind so many others is wrong.
fn bad_line(n: u32, before: usize) -> SceneFault
    ensures { IsPlaceUnlessMemory result (bad.Line n (before + 1)) }
{
    match u32::try_from(before) {
        Ok(m) => match m.checked_add(1) {
            Some(m) => SceneFault::Bad(Where::Line(n, m)),
            None => SceneFault::NoMemory,
        },
        Err(_) => SceneFault::NoMemory,
    }
}

// Adds the lines of an array to script n, which has none.
fn add_lines(
    alloc: Global,
    cards: &Cards<'_>,
    n: u32,
    items: &Array,
    script: Script,
) -> Result<Script, SceneFault>
    requires { script.lines ≡ [] }
    ensures { GivesPlace (λ s. s) result (with_lines script.name (bad_item (λ m. bad.Line n (m + 1)) (each_after (scene_line_of cards.now) [] (array_view items.now)))) }
{
    let mut script = script;
    for item in items.iter() {
        let before = script.len();
        match scene_line(alloc, cards, item) {
            Ok(line) => match script.push(line) {
                Ok(()) => (),
                Err(_) => return Err(SceneFault::NoMemory),
            },
            Err(fault) => match fault {
                LineFault::Malformed => return Err(bad_line(n, before)),
                LineFault::NoMemory => return Err(SceneFault::NoMemory),
            },
        }
    }
    Ok(script)
}

// A script with its lines.
#[tactic(auto, unfolding(scene_table::specs::Readings::each_after))]
fn read_script(
    alloc: Global,
    cards: &Cards<'_>,
    n: u32,
    raw: LentScript<'_>,
) -> Result<Script, SceneFault>
    ensures { GivesPlace (λ s. s) result (script_at cards.now n (raw_view raw.entry)) }
{
    match Script::new(alloc, raw.name) {
        Ok(script) => match raw.lines {
            Some(items) => add_lines(alloc, cards, n, items, script),
            None => Ok(script),
        },
        Err(_) => Err(SceneFault::NoMemory),
    }
}

/// The scripts, whose lines are read.
pub(crate) fn read_scripts(
    alloc: Global,
    cards: &Cards<'_>,
    raws: &[LentScript<'_>],
) -> Result<Vec<Script>, SceneFault>
    ensures { GivesPlace (λ v. v.items) result (scripts_after cards.now [] (map raw_view raws.now)) }
{
    let mut scripts: Vec<Script> = Vec::new(alloc);
    for raw in raws {
        let before = scripts.as_slice().len();
        match u32::try_from(before) {
            Ok(n) => match read_script(alloc, cards, n, *raw) {
                Ok(script) => match scripts.push(script) {
                    Ok(()) => (),
                    Err(_) => return Err(SceneFault::NoMemory),
                },
                Err(fault) => return Err(fault),
            },
            Err(_) => return Err(SceneFault::NoMemory),
        }
    }
    Ok(scripts)
}
