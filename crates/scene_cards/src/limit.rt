// The limits of cards, in their order.
ghost use Rattle.std.specs.Prelude.{◌≡◌, nat_lt, map};
ghost use Rattle.std.specs.List.{list_any};
ghost use Rattle.piv_model.specs.declared.limits.TheConstants.{LONGEST_OBJECT};
ghost use Rattle.piv_model.specs.Memory.{blocks};
ghost use Rattle.scene_cards.specs.CardLimits.{object_blocks, card_limit as card_limit_of, cards_limit as cards_limit_of};
ghost use Rattle.scene_cards.specs.Objects.{value_size as value_size_of};
ghost use Rattle.scene_cards.specs.Views.{card_view, value_view, object_view};

use crate::card::RawCard;
use crate::objects::{RawObject, RawValue, value_size};
use piv_model::Limit;
use piv_model::limits::{BLOCK, LONGEST_OBJECT, MOST_BLOCKS};

const MOST_TRIES: u64 = 15;

const MOST_LOSSES: usize = 4096;

fn has_large(objects: &[RawObject]) -> bool
    ensures { result ≡ list_any (λ o. nat_lt LONGEST_OBJECT (value_size_of (value_view o.value))) objects.now }
{
    objects
        .iter()
        .any(|object| value_size(&object.value) > LONGEST_OBJECT as u64)
}

fn value_blocks(value: &RawValue) -> u64
    ensures { result ≡ blocks (value_size_of (value_view value.now)) }
{
    value_size(value).div_ceil(BLOCK as u64)
}

// Whether the objects need more blocks than the budget has.
fn is_over(objects: &[RawObject], budget: u64) -> bool
    ensures { result ≡ nat_lt budget (object_blocks (map object_view objects.now)) }
{
    let mut left = budget;
    for object in objects {
        let blocks = value_blocks(&object.value);
        if blocks > left {
            return true;
        }
        left -= blocks;
    }
    false
}

#[tactic(auto, using(crate::proofs::LimitLaws::large_objects))]
fn card_limit(card: &RawCard<'_>) -> Option<Limit>
    ensures { result ≡ card_limit_of (card_view card.now) }
{
    if card.parts.limit_pin > MOST_TRIES {
        return Some(Limit::LimitPin);
    }
    if card.parts.limit_puk > MOST_TRIES {
        return Some(Limit::LimitPuk);
    }
    if card.parts.limit_global > MOST_TRIES {
        return Some(Limit::LimitGlobal);
    }
    if card.parts.budget > MOST_BLOCKS as u64 {
        return Some(Limit::Budget);
    }
    if card.losses.as_slice().len() > MOST_LOSSES {
        return Some(Limit::Losses);
    }
    if has_large(card.objects.as_slice()) {
        return Some(Limit::Object);
    }
    if is_over(card.objects.as_slice(), card.parts.budget) {
        return Some(Limit::Room);
    }
    None
}

/// The first limit that a card passes, card by card.
pub fn cards_limit(cards: &[RawCard<'_>]) -> Option<Limit>
    ensures { result ≡ cards_limit_of (map card_view cards.now) }
{
    for card in cards {
        match card_limit(card) {
            Some(limit) => return Some(limit),
            None => (),
        }
    }
    None
}
