// What is made of the cards of a scene that passes no limit.
ghost use Rattle.std.specs.Prelude.{◌≡◌, ◌≤◌, ◌++◌, ◌∷◌, [], map, replicate, IfOk, OnOk, option_copied, option_map, None};
ghost use Rattle.std.specs.String.{string_bytes};
ghost use Rattle.scene_cards.specs.Views.{card_view, object_view, raw_parts_view};
ghost use Rattle.scene_cards.specs.CardLimits.{cards_limit};
ghost use Rattle.scene_cards.specs.CardValues.{object_pair, global_start, start_of, card_value, reader_of};

use crate::card::RawCard;
use crate::objects::{RawObject, RawValue};
use crate::parts::RawParts;
use nvm_device::Loss;
use piv_model::{Interface, NoMemory, Start, StartGlobal, StartObjects};
use std::alloc::Global;
use std::marker::Model;

/// A card of a scene.
#[derive(Drop)]
pub struct SceneCard {
    name: String,
    contact: Option<String>,
    contactless: Option<String>,
    start: Start,
    plan: Vec<Loss>,
}

impl Model for SceneCard {
    ghost use Rattle.std.specs.Prelude.{option_map};
    ghost use Rattle.std.specs.String.{string_bytes};
    ghost use Rattle.scene_cards.specs.CardValues.{CardValue};

    ghost Value = { CardValue };

    ghost view = { λ c. record {
      name = string_bytes c.name;
      contact = option_map string_bytes c.contact;
      contactless = option_map string_bytes c.contactless;
      start = c.start;
      plan = c.plan.items;
    } };
}

impl SceneCard {
    /// A card whose device loses no write.
    pub fn new(
        alloc: Global,
        name: &str,
        contact: Option<&str>,
        contactless: Option<&str>,
        start: Start,
    ) -> Result<SceneCard, NoMemory>
        ensures { IfOk result (λ card. card ≡ record {
          name = name.now;
          contact = option_copied contact.entry;
          contactless = option_copied contactless.entry;
          start = start;
          plan = [];
        }) }
    {
        Ok(SceneCard {
            name: make_text(alloc, name)?,
            contact: make_text_if_any(alloc, contact)?,
            contactless: make_text_if_any(alloc, contactless)?,
            start,
            plan: Vec::new(alloc),
        })
    }

    /// Its name.
    pub fn name(&self) -> &str
        ensures { result.now ≡ self.now.name }
    {
        self.name.as_str()
    }

    /// The name of its reader of an interface, if it has one.
    pub fn reader(&self, interface: Interface) -> Option<&str>
        ensures { option_copied result ≡ reader_of self.now interface }
    {
        match interface {
            Interface::Contact => text_of(&self.contact),
            Interface::Contactless => text_of(&self.contactless),
        }
    }

    /// What it begins with.
    pub fn start(&self) -> &Start
        ensures { result.now ≡ self.now.start }
    {
        &self.start
    }

    /// The losses of its device.
    pub fn plan(&self) -> &[Loss]
        ensures { result.now ≡ self.now.plan }
    {
        &self.plan
    }
}

fn text_of(text: &Option<String>) -> Option<&str>
    ensures { option_copied result ≡ option_map string_bytes text.now }
{
    match text {
        Some(text) => Some(text.as_str()),
        None => None,
    }
}

// So many equal bytes.
fn filled(alloc: Global, size: u64, fill: u8) -> Result<Vec<u8>, NoMemory>
    ensures { IfOk result (λ v. v.items ≡ replicate size fill) }
{
    Ok(vec![in alloc; fill; size as usize]?)
}

fn push_object(
    alloc: Global,
    objects: &mut StartObjects,
    object: &RawObject,
) -> Result<(), NoMemory>
    ensures { OnOk result (objects.new ≡ objects.old ++ object_pair (object_view object.now) ∷ []) }
{
    match &object.value {
        RawValue::Given(bytes) => objects.push(object.id, bytes.as_slice()),
        RawValue::Filled(size, fill) => {
            let bytes = filled(alloc, *size, *fill)?;
            objects.push(object.id, bytes.as_slice())
        }
    }
}

fn make_objects(alloc: Global, objects: &[RawObject]) -> Result<StartObjects, NoMemory>
    ensures { IfOk result (λ made. made ≡ map object_pair (map object_view objects.now)) }
{
    let mut made = StartObjects::new(alloc);
    for object in objects {
        push_object(alloc, &mut made, object)?;
    }
    Ok(made)
}

/// An equal plan.
pub fn copy_plan(alloc: Global, losses: &[Loss]) -> Result<Vec<Loss>, NoMemory>
    ensures { IfOk result (λ v. v.items ≡ losses.now) }
{
    let mut plan = Vec::new(alloc);
    for loss in losses {
        let next = Loss {
            write: loss.write,
            how: loss.how.copy(),
        };
        plan.push(next)?;
    }
    Ok(plan)
}

// A Global PIN, or none.
fn make_global(parts: &RawParts) -> StartGlobal
    requires { parts.now.limit_global ≤ 15 }
    ensures { result ≡ global_start parts.now.global parts.now.limit_global }
{
    match parts.global {
        Some(pin) => StartGlobal {
            limit: parts.limit_global as u8,
            pin,
        },
        None => StartGlobal {
            limit: 0,
            pin: [0; 8],
        },
    }
}

fn make_start(alloc: Global, parts: &RawParts, objects: &[RawObject]) -> Result<Start, NoMemory>
    requires limit_pin { parts.now.limit_pin ≤ 15 }
    requires limit_puk { parts.now.limit_puk ≤ 15 }
    requires limit_global { parts.now.limit_global ≤ 15 }
    requires budget { parts.now.budget ≤ 2048 }
    ensures { IfOk result (λ start. start ≡ start_of (raw_parts_view parts.now) (map object_view objects.now)) }
{
    let objects = make_objects(alloc, objects)?;
    Ok(Start {
        pin: parts.pin,
        puk: parts.puk,
        limit_pin: parts.limit_pin as u8,
        limit_puk: parts.limit_puk as u8,
        global: make_global(parts),
        admin: parts.admin,
        card_auth: parts.card_auth,
        budget: parts.budget as u16,
        random: parts.random,
        objects,
    })
}

fn make_text(alloc: Global, text: &str) -> Result<String, NoMemory>
    ensures { IfOk result (λ t. string_bytes t ≡ text.now) }
{
    Ok(String::from_str(alloc, text)?)
}

fn make_text_if_any(alloc: Global, text: Option<&str>) -> Result<Option<String>, NoMemory>
    ensures { IfOk result (λ t. option_map string_bytes t ≡ option_copied text.entry) }
{
    match text {
        Some(text) => Ok(Some(make_text(alloc, text)?)),
        None => Ok(None),
    }
}

// A card that passes no limit.
fn make_card(alloc: Global, card: &RawCard<'_>) -> Result<SceneCard, NoMemory>
    requires limit_pin { card.now.parts.limit_pin ≤ 15 }
    requires limit_puk { card.now.parts.limit_puk ≤ 15 }
    requires limit_global { card.now.parts.limit_global ≤ 15 }
    requires budget { card.now.parts.budget ≤ 2048 }
    ensures { IfOk result (λ made. made ≡ card_value (card_view card.now)) }
{
    let name = make_text(alloc, card.name)?;
    let contact = make_text_if_any(alloc, card.contact)?;
    let contactless = make_text_if_any(alloc, card.contactless)?;
    let start = make_start(alloc, &card.parts, card.objects.as_slice())?;
    let plan = copy_plan(alloc, card.losses.as_slice())?;
    Ok(SceneCard {
        name,
        contact,
        contactless,
        start,
        plan,
    })
}

/// The cards, which pass no limit.
pub fn make_cards(alloc: Global, cards: &[RawCard<'_>]) -> Result<Vec<SceneCard>, NoMemory>
    requires { cards_limit (map card_view cards.now) ≡ None }
    ensures { IfOk result (λ made. made.items ≡ map card_value (map card_view cards.now)) }
{
    let mut made: Vec<SceneCard> = Vec::new(alloc);
    for card in cards {
        let next = make_card(alloc, card)?;
        made.push(next)?;
    }
    Ok(made)
}
