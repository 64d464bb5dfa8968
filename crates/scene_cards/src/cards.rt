// The cards of a scene, before their limits are tested.
ghost use Rattle.std.specs.Prelude.{◌≡◌, ◌++◌, ◌∷◌, [], map, length, option_map, option_copied, IfOk, OnOk};
ghost use Rattle.toml.specs.View.{array_view, table_view};
ghost use Rattle.piv_model.specs.declared.places.Where.TheVariants as bad;
ghost use Rattle.scene_table.specs.Answers.{GivesPlace};
ghost use Rattle.scene_table.specs.Names.{is_among, HaveSame};
ghost use Rattle.scene_table.specs.Readings.{each_after};
ghost use Rattle.scene_cards.specs.Cards.{card_names, reader_names, named, bad_item, cards_at, some_items as some_items_of, if_some, card_items as card_items_of, card_of};
ghost use Rattle.scene_cards.specs.Views.{card_view};

use crate::card::{RawCard, read_card};
use line_words::LineFault;
use piv_model::Where;
use scene_table::{Names, SceneFault, all_tables, find};
use std::alloc::{AllocError, Global};
use std::marker::Model;
use toml::Table;
use toml::value::Array;

/// Cards behind one another, no two of one name and no two readers of one name. Contracts see what was read of each.
#[derive(Drop)]
pub struct Cards<'a> {
    cards: Vec<RawCard<'a>>,
    names: Names<'a>,
    readers: Names<'a>,
}

impl<'a> Model for Cards<'a> {
    ghost use Rattle.std.specs.Prelude.{List, map};
    ghost use Rattle.scene_table.specs.Names.{HaveSame};
    ghost use Rattle.scene_cards.specs.Cards.{CardData, card_names, reader_names};
    ghost use Rattle.scene_cards.specs.Views.{card_view};

    ghost Value = { List CardData };

    ghost view = { λ a. map card_view a.cards.items };

    ghost invariant = { λ a. HaveSame a.names (card_names (map card_view a.cards.items))
        × HaveSame a.readers (reader_names (map card_view a.cards.items)) };
}

impl<'a> Cards<'a> {
    fn new(alloc: Global) -> Cards<'a>
        ensures { result ≡ [] }
    {
        Cards {
            cards: Vec::new(alloc),
            names: Names::new(alloc),
            readers: Names::new(alloc),
        }
    }

    /// The number of cards.
    pub fn len(&self) -> usize
        ensures { result ≡ length self.now }
    {
        self.cards.len()
    }

    /// The cards.
    pub fn as_slice(&self) -> &[RawCard<'a>]
        ensures { map card_view result.now ≡ self.now }
    {
        &self.cards
    }

    /// Whether a card has this name.
    pub fn has_card(&self, name: &str) -> bool
        ensures { result ≡ is_among (card_names self.now) name.now }
    {
        self.names.has(name)
    }

    /// Whether a card has a reader of this name.
    pub fn has_reader(&self, name: &str) -> bool
        ensures { result ≡ is_among (reader_names self.now) name.now }
    {
        self.readers.has(name)
    }

    // One card more.
    fn with(self, card: RawCard<'a>) -> Result<Cards<'a>, AllocError>
        ensures { IfOk result (λ cards. cards ≡ self.entry ++ card_view card.entry ∷ []) }
    {
        let Cards {
            mut cards,
            mut names,
            mut readers,
        } = self;
        names.add(card.name)?;
        add_if_any(&mut readers, card.contact)?;
        add_if_any(&mut readers, card.contactless)?;
        cards.push(card)?;
        Ok(Cards {
            cards,
            names,
            readers,
        })
    }
}

// Adds a name, if there is one.
fn add_if_any<'a>(names: &mut Names<'a>, name: Option<&'a str>) -> Result<(), AllocError>
    ensures { OnOk result (HaveSame names.new (named (option_copied name.entry) ++ names.old)) }
{
    match name {
        Some(name) => names.add(name),
        None => Ok(()),
    }
}

// Whether there is an item.
#[tactic(auto, using(crate::proofs::ItemLaws::no_items_view, crate::proofs::ItemLaws::some_items_view))]
fn some_items(items: &Array) -> bool
    ensures { some_items_of (array_view items.now) ≡ if_some result (array_view items.now) }
{
    items.as_slice().len() > 0
}

// The items of which each is a card.
fn card_items(doc: &Table) -> Option<&Array>
    ensures { option_map (λ items. array_view items.now) result ≡ card_items_of (table_view doc.now) }
{
    let value = find(doc, "card")?;
    let items = value.as_array()?;
    if !all_tables(items) {
        return None;
    }
    if some_items(items) { Some(items) } else { None }
}

// The cards of an array.
fn read_items<'a>(alloc: Global, items: &'a Array) -> Result<Cards<'a>, SceneFault>
    ensures { GivesPlace (λ cards. cards) result (bad_item bad.Card (each_after card_of [] (array_view items.now))) }
{
    let mut cards = Cards::new(alloc);
    for item in items.iter() {
        let before = cards.len();
        match read_card(alloc, &cards, item) {
            Ok(card) => match cards.with(card) {
                Ok(more) => cards = more,
                Err(_) => return Err(SceneFault::NoMemory),
            },
            Err(fault) => match fault {
                LineFault::Malformed => match u32::try_from(before) {
                    Ok(place) => return Err(SceneFault::Bad(Where::Card(place))),
                    Err(_) => return Err(SceneFault::NoMemory),
                },
                LineFault::NoMemory => return Err(SceneFault::NoMemory),
            },
        }
    }
    Ok(cards)
}

/// The cards of a document.
pub fn read_cards<'a>(alloc: Global, doc: &'a Table) -> Result<Cards<'a>, SceneFault>
    ensures { GivesPlace (λ cards. cards) result (cards_at (table_view doc.now)) }
{
    match card_items(doc) {
        Some(items) => read_items(alloc, items),
        None => Err(SceneFault::Bad(Where::Cards)),
    }
}
