// The secrets, limits and the budget of a card.
ghost use Rattle.toml.specs.View.{table_view};
ghost use Rattle.scene_table.specs.Answers.{GivesBy};
ghost use Rattle.scene_cards.specs.Cards.{parts_of};
ghost use Rattle.scene_cards.specs.Views.{raw_parts_view};

use line_words::LineFault;
use piv_model::KeyBytes;
use scene_table::{from_one_or, key_or, pin_if_any, pin_or, puk_or, random_or};
use std::alloc::Global;
use toml::Table;

/// The secrets, limits and the budget of a card, before the limits are tested.
#[derive(Drop)]
pub struct RawParts {
    pub random: [u8; 32],
    pub pin: [u8; 8],
    pub puk: [u8; 8],
    pub limit_pin: u64,
    pub limit_puk: u64,
    pub global: Option<[u8; 8]>,
    pub limit_global: u64,
    pub admin: KeyBytes,
    pub card_auth: KeyBytes,
    pub budget: u64,
}

const FIRST_PIN: [u8; 8] = [0x31, 0x32, 0x33, 0x34, 0x35, 0x36, 0xFF, 0xFF];

const FIRST_PUK: [u8; 8] = [0x31, 0x32, 0x33, 0x34, 0x35, 0x36, 0x37, 0x38];

// Keys of AES-128, each behind it filled up to 32 bytes with zeros.
#[rattlefmt::skip]
const FIRST_ADMIN: KeyBytes = KeyBytes {
    algorithm: 0x08,
    bytes: [
        0x10, 0x11, 0x12, 0x13, 0x14, 0x15, 0x16, 0x17, 0x18, 0x19, 0x1A, 0x1B, 0x1C, 0x1D, 0x1E, 0x1F,
        0x00, 0x00, 0x00, 0x00, 0x00, 0x00, 0x00, 0x00, 0x00, 0x00, 0x00, 0x00, 0x00, 0x00, 0x00, 0x00,
    ],
};

#[rattlefmt::skip]
const FIRST_CARD_AUTH: KeyBytes = KeyBytes {
    algorithm: 0x08,
    bytes: [
        0x00, 0x01, 0x02, 0x03, 0x04, 0x05, 0x06, 0x07, 0x08, 0x09, 0x0A, 0x0B, 0x0C, 0x0D, 0x0E, 0x0F,
        0x00, 0x00, 0x00, 0x00, 0x00, 0x00, 0x00, 0x00, 0x00, 0x00, 0x00, 0x00, 0x00, 0x00, 0x00, 0x00,
    ],
};

const FIRST_BUDGET: u64 = 2048;

pub(crate) fn read_parts(alloc: Global, table: &Table) -> Result<RawParts, LineFault>
    ensures { GivesBy raw_parts_view result (parts_of (table_view table.now)) }
{
    Ok(RawParts {
        random: random_or(alloc, table, "random", [0; 32])?,
        pin: pin_or(alloc, table, "pin", FIRST_PIN)?,
        puk: puk_or(alloc, table, "puk", FIRST_PUK)?,
        limit_pin: from_one_or(table, "limit_pin", 3)?,
        limit_puk: from_one_or(table, "limit_puk", 3)?,
        global: pin_if_any(alloc, table, "global")?,
        limit_global: from_one_or(table, "limit_global", 3)?,
        admin: key_or(alloc, table, "admin", FIRST_ADMIN)?,
        card_auth: key_or(alloc, table, "card_auth", FIRST_CARD_AUTH)?,
        budget: from_one_or(table, "budget", FIRST_BUDGET)?,
    })
}
