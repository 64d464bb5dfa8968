// The readers and the cards of a scene by their names.
ghost use Rattle.std.specs.Prelude.{◌≡◌, ◌<◌, ◌+◌, ◌++◌, length, take, option_copied, slice_get, None, Some, IfOk, IfSome, OnOk};
ghost use Rattle.std.specs.List.{AllByRecursion};
ghost use Rattle.client_api.specs.Players.{AreNamesOn};
ghost use Rattle.client_api.specs.Readers.{reader_of};
ghost use Rattle.scene_readers.specs.SceneNames.{reader_if, names_of, IsNamed};

use client_api::Readers;
use piv_model::{Interface, NoMemory};
use piv_scene::Scene;
use std::alloc::Global;

// Adds the reader of an interface, if the card has one.
fn add_reader(
    readers: &mut Readers,
    card: usize,
    side: Interface,
    name: Option<&str>,
) -> Result<(), NoMemory>
    requires { IfSome (option_copied name) (λ name. reader_of readers.old.readers name ≡ None) }
    ensures { OnOk result (readers.new ≡ record readers.old {
      readers = readers.old.readers ++ reader_if card side (option_copied name.entry);
    }) }
{
    match name {
        Some(name) => readers.add(name, card, side),
        None => Ok(()),
    }
}

// Adds a card and its readers behind those of the cards before it.
fn add_card(readers: &mut Readers, scene: &Scene, card: usize) -> Result<(), NoMemory>
    requires place { card < length scene.now.cards }
    requires before { readers.old ≡ names_of (take card scene.now.cards) }
    ensures { OnOk result (readers.new ≡ names_of (take (card + 1) scene.now.cards)) }
{
    scene.holds();
    let contact = scene.reader(card, Interface::Contact);
    let contactless = scene.reader(card, Interface::Contactless);
    add_reader(readers, card, Interface::Contact, contact)?;
    add_reader(readers, card, Interface::Contactless, contactless)?;
    readers.add_card(scene.card_name(card), card)
}

/// The readers and the cards of a scene by their names.
#[tactic(auto, using(crate::proofs::Found::named_laws))]
pub fn readers_of(alloc: Global, scene: &Scene) -> Result<Readers, NoMemory>
    ensures names { IfOk result (λ readers. readers ≡ names_of scene.now.cards) }
    // Each is on a card of the scene.
    ensures on { IfOk result (AreNamesOn (length scene.now.cards)) }
    // What a line of the scene's scripts names is among them; only `connect` may name another reader.
    ensures lines { IfOk result (λ readers. AllByRecursion (λ script. AllByRecursion (IsNamed readers) script.lines) scene.now.scripts) }
{
    let readers = all_readers(alloc, scene)?;
    scene.holds();
    Ok(readers)
}

// The same, in the order of the cards.
#[tactic(auto, using(crate::proofs::NextCard::growing_laws))]
fn all_readers(alloc: Global, scene: &Scene) -> Result<Readers, NoMemory>
    ensures { IfOk result (λ readers. readers ≡ names_of scene.now.cards) }
{
    let mut readers = Readers::new(alloc);
    for card in 0..scene.cards() {
        add_card(&mut readers, scene, card)?;
    }
    Ok(readers)
}
