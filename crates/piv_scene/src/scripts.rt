// The scripts of a scene, before their lines are read.
ghost use Rattle.std.specs.Prelude.{◌≡◌, ◌++◌, ◌∷◌, [], option_map, map, length, IfOk};
ghost use Rattle.toml.specs.View.{view, array_view, table_view};
ghost use Rattle.piv_model.specs.declared.places.Where.TheVariants as bad;
ghost use Rattle.scene_table.specs.Answers.{GivesPlace};
ghost use Rattle.scene_table.specs.Lent.{lent_items};
ghost use Rattle.scene_table.specs.Names.{is_among, HaveSame};
ghost use Rattle.scene_table.specs.Readings.{each_after};
ghost use Rattle.scene_cards.specs.Cards.{bad_item};
ghost use Rattle.piv_scene.specs.Documents.{raw_scripts_at};
ghost use Rattle.piv_scene.specs.Scripts.{script_of, script_names, raw_script as raw_script_of};
ghost use Rattle.piv_scene.specs.Views.{raw_view};

use piv_model::Where;
use scene_table::{Names, SceneFault, all_strings, all_tables, find, find_items, name_value};
use std::alloc::{AllocError, Global};
use toml::value::Array;
use toml::{Table, Value};

/// A script, lent from the document.
#[derive(Clone, Copy)]
pub(crate) struct LentScript<'a> {
    pub(crate) name: &'a str,
    pub(crate) lines: Option<&'a Array>,
}

/// Scripts behind one another, no two of one name.
#[derive(Drop)]
pub(crate) struct LentScripts<'a> {
    scripts: Vec<LentScript<'a>>,
    names: Names<'a>,
    ghost same: { HaveSame names (script_names (map raw_view scripts.items)) },
}

impl<'a> LentScripts<'a> {
    fn new(alloc: Global) -> LentScripts<'a>
        ensures { result.scripts.items ≡ [] }
    {
        LentScripts {
            scripts: Vec::new(alloc),
            names: Names::new(alloc),
        }
    }

    fn len(&self) -> usize
        ensures { result ≡ length self.now.scripts.items }
    {
        self.scripts.len()
    }

    pub(crate) fn as_slice(&self) -> &[LentScript<'a>]
        ensures { result.now ≡ self.now.scripts.items }
    {
        &self.scripts
    }

    // Whether a script has this name.
    fn has_script(&self, name: &str) -> bool
        ensures { result ≡ is_among (script_names (map raw_view self.now.scripts.items)) name.now }
    {
        self.names.has(name)
    }

    // One script more.
    fn with(self, script: LentScript<'a>) -> Result<LentScripts<'a>, AllocError>
        ensures { IfOk result (λ scripts. scripts.scripts.items ≡ self.entry.scripts.items ++ script.entry ∷ []) }
    {
        let LentScripts {
            mut scripts,
            mut names,
        } = self;
        names.add(script.name)?;
        scripts.push(script)?;
        Ok(LentScripts { scripts, names })
    }
}

fn raw_script<'a>(name: &'a str, lines: Option<&'a Array>) -> Option<LentScript<'a>>
    ensures { option_map raw_view result ≡ raw_script_of name.now (lent_items lines.entry) }
{
    match lines {
        Some(items) => {
            if all_strings(items) {
                Some(LentScript { name, lines })
            } else {
                None
            }
        }
        None => Some(LentScript { name, lines }),
    }
}

// A script behind others.
fn read_script<'a>(before: &LentScripts<'_>, value: &'a Value) -> Option<LentScript<'a>>
    ensures { option_map raw_view result ≡ script_of (map raw_view before.now.scripts.items) (view value.now) }
{
    let table = value.as_table()?;
    let name = name_value(find(table, "name")?)?;
    if before.has_script(name) {
        return None;
    }
    let lines = find_items(table, "lines")?;
    raw_script(name, lines)
}

// The scripts of an array.
fn read_items<'a>(alloc: Global, items: &'a Array) -> Result<LentScripts<'a>, SceneFault>
    ensures { GivesPlace (λ s. map raw_view s.scripts.items) result (bad_item bad.Script (each_after script_of [] (array_view items.now))) }
{
    let mut scripts = LentScripts::new(alloc);
    for item in items.iter() {
        let before = scripts.len();
        match read_script(&scripts, item) {
            Some(script) => match scripts.with(script) {
                Ok(more) => scripts = more,
                Err(_) => return Err(SceneFault::NoMemory),
            },
            None => match u32::try_from(before) {
                Ok(place) => return Err(SceneFault::Bad(Where::Script(place))),
                Err(_) => return Err(SceneFault::NoMemory),
            },
        }
    }
    Ok(scripts)
}

/// The scripts of a document, before their lines are read.
#[tactic(auto, unfolding(scene_table::specs::Readings::each_after))]
pub(crate) fn read_raw_scripts(alloc: Global, doc: &Table) -> Result<LentScripts<'_>, SceneFault>
    ensures { GivesPlace (λ s. map raw_view s.scripts.items) result (raw_scripts_at (table_view doc.now)) }
{
    match find_items(doc, "script") {
        Some(Some(items)) => {
            if all_tables(items) {
                read_items(alloc, items)
            } else {
                Err(SceneFault::Bad(Where::Script(0)))
            }
        }
        Some(None) => Ok(LentScripts::new(alloc)),
        None => Err(SceneFault::Bad(Where::Script(0))),
    }
}
