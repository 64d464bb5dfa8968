// A scene.
ghost use Rattle.std.specs.Prelude.{◌≡◌, ◌≤◌, ◌<◌, option_map, option_copied, map, length, slice_get, Some, None, Ok, IfOk};
ghost use Rattle.toml.specs.View.{table_view};
ghost use Rattle.power_loss.specs.Due.{RisesFrom};
ghost use Rattle.power_loss.specs.Plans.{write_numbers};
ghost use Rattle.piv_model.specs.Starts.{SpellsMemory};
ghost use Rattle.script_line.specs.Playable.{ArePlayable};
ghost use Rattle.scene_table.specs.Answers.{GivesPlace};
ghost use Rattle.scene_cards.specs.CardValues.{reader_of};
ghost use Rattle.piv_scene.specs.Documents.{SceneData, after_cards, with_document};
ghost use Rattle.piv_scene.specs.Outcomes.{Answers, judged, outcome};
ghost use Rattle.piv_scene.specs.SceneLimits.{first_limit as first_limit_of};
ghost use Rattle.piv_scene.specs.SceneValues.{scene_value, IsScene};

use crate::limits::first_limit;
use crate::lines::read_scripts;
use crate::schedule::read_schedule;
use crate::scripts::read_raw_scripts;
use nvm_device::Loss;
use piv_model::{Interface, Limit, Start, Where};
use scene_cards::{Cards, SceneCard, make_cards, read_cards};
use scene_table::{SceneFault, read_document};
use script_line::Script;
use std::alloc::Global;
use std::marker::Model;
use toml::Table;

const LONGEST_INPUT: usize = 8_388_608;

/// A scene: cards, scripts, and the order in which the scripts take steps.
#[derive(Drop)]
pub struct Scene {
    cards: Vec<SceneCard>,
    scripts: Vec<Script>,
    schedule: Vec<u32>,
}

impl Model for Scene {
    ghost use Rattle.piv_scene.specs.SceneValues.{SceneValue, IsScene};

    ghost Value = { SceneValue };

    ghost view = { λ s. record { cards = s.cards.items; scripts = s.scripts.items; schedule = s.schedule.items } };

    ghost invariant = { λ s. IsScene record { cards = s.cards.items; scripts = s.scripts.items; schedule = s.schedule.items } };
}

impl Scene {
    pub(crate) fn new(cards: Vec<SceneCard>, scripts: Vec<Script>, schedule: Vec<u32>) -> Scene
        requires { IsScene record { cards = cards.items; scripts = scripts.items; schedule = schedule.items } }
        ensures value { result ≡ record { cards = cards.items; scripts = scripts.items; schedule = schedule.items } }
        ensures known { IsScene result }
    {
        Scene {
            cards,
            scripts,
            schedule,
        }
    }

    /// What holds of each scene.
    pub fn holds(&self)
        ensures { IsScene self.now }
    {
        let _ = &self.cards;
    }

    /// The number of cards.
    pub fn cards(&self) -> usize
        ensures count { result ≡ length self.now.cards }
        ensures some { 1 ≤ result }
        ensures few { result ≤ 8 }
    {
        self.cards.as_slice().len()
    }

    /// The name of a card.
    pub fn card_name(&self, card: usize) -> &str
        requires { card < length self.now.cards }
        ensures { option_map (λ c. c.name) (slice_get self.now.cards card) ≡ Some result.now }
    {
        self.cards[card].name()
    }

    /// The name of the reader of a card's interface, if it has one.
    pub fn reader(&self, card: usize, interface: Interface) -> Option<&str>
        requires { card < length self.now.cards }
        ensures { option_map (λ c. reader_of c interface) (slice_get self.now.cards card) ≡ Some (option_copied result) }
    {
        self.cards[card].reader(interface)
    }

    /// What a card begins with.
    pub fn start(&self, card: usize) -> &Start
        requires { card < length self.now.cards }
        ensures value { option_map (λ c. c.start) (slice_get self.now.cards card) ≡ Some result.now }
        ensures spells { SpellsMemory result.now }
    {
        self.cards[card].start()
    }

    /// The losses of a card's device.
    pub fn plan(&self, card: usize) -> &[Loss]
        requires { card < length self.now.cards }
        ensures value { option_map (λ c. c.plan) (slice_get self.now.cards card) ≡ Some result.now }
        ensures rises { RisesFrom 0 (write_numbers result.now) }
    {
        self.cards[card].plan()
    }

    /// The number of scripts.
    pub fn scripts(&self) -> usize
        ensures count { result ≡ length self.now.scripts }
        ensures few { result ≤ 64 }
    {
        self.scripts.as_slice().len()
    }

    /// The scripts.
    pub fn all_scripts(&self) -> &[Script]
        ensures { result.now ≡ self.now.scripts }
    {
        &self.scripts
    }

    /// A script by its place, counted from 0.
    pub fn script(&self, k: usize) -> &Script
        requires { k < length self.now.scripts }
        ensures value { slice_get self.now.scripts k ≡ Some result.now }
        ensures playable { ArePlayable result.now.lines }
    {
        &self.scripts[k]
    }

    /// The places of the scripts that take the first steps, one place for each step.
    pub fn schedule(&self) -> &[u32]
        ensures { result.now ≡ self.now.schedule }
    {
        &self.schedule
    }
}

// The scripts with their lines, and the schedule.
fn read_after_cards(
    alloc: Global,
    cards: &Cards<'_>,
    doc: &Table,
) -> Result<(Vec<Script>, Vec<u32>), SceneFault>
    ensures { GivesPlace (λ p. (p.0.items, p.1.items)) result (after_cards cards.now (table_view doc.now)) }
{
    let raws = read_raw_scripts(alloc, doc)?;
    let scripts = read_scripts(alloc, cards, raws.as_slice())?;
    let count = scripts.as_slice().len();
    let schedule = read_schedule(alloc, count, doc)?;
    Ok((scripts, schedule))
}

// The cards, the scripts and the schedule of a document.
fn read_parts(
    alloc: Global,
    doc: &Table,
) -> Result<(Cards<'_>, (Vec<Script>, Vec<u32>)), SceneFault>
    ensures { GivesPlace (λ p. record { cards = p.0; scripts = p.1.0.items; schedule = p.1.1.items }) result (with_document (table_view doc.now)) }
{
    let cards = read_cards(alloc, doc)?;
    let rest = read_after_cards(alloc, &cards, doc)?;
    Ok((cards, rest))
}

// The scene, if it passes no limit.
fn judge(
    alloc: Global,
    cards: Cards<'_>,
    scripts: Vec<Script>,
    schedule: Vec<u32>,
) -> Result<Scene, SceneFault>
    requires { let d : SceneData = record { cards = cards; scripts = scripts.items; schedule = schedule.items } in
        first_limit_of d ≡ None → IsScene (scene_value d) }
    ensures { let d : SceneData = record { cards = cards.entry; scripts = scripts.items; schedule = schedule.items } in
        Answers result (judged (Ok d)) }
{
    let raw = cards.as_slice();
    let lines = scripts.as_slice();
    let places = schedule.as_slice().len();
    match first_limit(&cards, lines, places) {
        Some(limit) => Err(SceneFault::TooLarge(limit)),
        None => match make_cards(alloc, raw) {
            Ok(cards) => Ok(Scene {
                cards,
                scripts,
                schedule,
            }),
            Err(_) => Err(SceneFault::NoMemory),
        },
    }
}

// The scene of a document.
fn read_tree(alloc: Global, doc: &Table) -> Result<Scene, SceneFault>
    ensures { Answers result (judged (with_document (table_view doc.now))) }
{
    match read_parts(alloc, doc) {
        Ok(parts) => judge(alloc, parts.0, parts.1.0, parts.1.1),
        Err(fault) => Err(fault),
    }
}

// The scene that the bytes spell.
fn read_bytes(alloc: Global, bytes: &[u8]) -> Result<Scene, SceneFault>
    ensures { Answers result (outcome bytes.now) }
{
    if bytes.len() > LONGEST_INPUT {
        return Err(SceneFault::TooLarge(Limit::Input));
    }
    match read_document(alloc, bytes) {
        Ok(Some(doc)) => read_tree(alloc, &doc),
        Ok(None) => Err(SceneFault::Bad(Where::NotToml)),
        Err(_) => Err(SceneFault::NoMemory),
    }
}

/// The scene that the bytes spell. Else the first place where they are wrong, or the first limit that is passed.
#[tactic(auto, using(crate::proofs::SceneSound::answers_sound))]
pub fn read_scene(alloc: Global, bytes: &[u8]) -> Result<Scene, SceneFault>
    ensures answer { Answers result (outcome bytes.now) }
    ensures known { IfOk result IsScene }
{
    read_bytes(alloc, bytes)
}
