// The plain card.
ghost use Rattle.std.specs.Prelude.{◌≡◌, replicate, IfOk};
ghost use Rattle.piv_model.specs.Starts.{memory_of_start, SpellsMemory};
ghost use Rattle.piv_model.specs.PlainCard.{plain_memory, plain_pairs, plain_admin_key, plain_card_key, filled_up};

use crate::discovery::discovery_value;
use crate::limits::MOST_BLOCKS;
use crate::no_memory::NoMemory;
use crate::objects::ObjectId;
use crate::start::{KeyBytes, Start, StartGlobal, StartObjects};
use std::alloc::Global;

const CHUID: [u8; 4] = [0x3E, 0x00, 0xFE, 0x00];

const PRINTED_INFORMATION: [u8; 6] = [0x01, 0x02, 0x41, 0x42, 0xFE, 0x00];

// The PIN usage policy: the PIN of the PIV application alone.
const POLICY: [u8; 2] = [0x40, 0x00];

const NO_GLOBAL_PIN: StartGlobal = StartGlobal {
    limit: 0,
    pin: [0; 8],
};

// The keys of AES-128, each behind it filled up to 32 bytes with zeros.
#[rattlefmt::skip]
const ADMIN_KEY: KeyBytes = KeyBytes {
    algorithm: 0x08,
    bytes: [
        0x10, 0x11, 0x12, 0x13, 0x14, 0x15, 0x16, 0x17, 0x18, 0x19, 0x1A, 0x1B, 0x1C, 0x1D, 0x1E, 0x1F,
        0x00, 0x00, 0x00, 0x00, 0x00, 0x00, 0x00, 0x00, 0x00, 0x00, 0x00, 0x00, 0x00, 0x00, 0x00, 0x00,
    ],
};

#[rattlefmt::skip]
const CARD_AUTHENTICATION_KEY: KeyBytes = KeyBytes {
    algorithm: 0x08,
    bytes: [
        0x00, 0x01, 0x02, 0x03, 0x04, 0x05, 0x06, 0x07, 0x08, 0x09, 0x0A, 0x0B, 0x0C, 0x0D, 0x0E, 0x0F,
        0x00, 0x00, 0x00, 0x00, 0x00, 0x00, 0x00, 0x00, 0x00, 0x00, 0x00, 0x00, 0x00, 0x00, 0x00, 0x00,
    ],
};

// A CHUID, printed information and a Discovery Object.
fn plain_objects(alloc: Global) -> Result<StartObjects, NoMemory>
    ensures { IfOk result (λ objects. objects ≡ plain_pairs) }
{
    let mut objects = StartObjects::new(alloc);
    objects.push(ObjectId::at(1), &CHUID)?;
    objects.push(ObjectId::at(9), &PRINTED_INFORMATION)?;
    objects.push(ObjectId::discovery(), &discovery_value(POLICY))?;
    Ok(objects)
}

/// The plain card, on which `piv apdu` runs.
pub fn plain_start(alloc: Global) -> Result<Start, NoMemory>
    ensures memory { IfOk result (λ start. memory_of_start start ≡ plain_memory) }
    ensures objects { IfOk result (λ start. start.objects ≡ plain_pairs) }
    ensures keys { IfOk result (λ start.
        (start.admin.bytes ≡ filled_up plain_admin_key) × (start.card_auth.bytes ≡ filled_up plain_card_key)) }
    ensures global { IfOk result (λ start. start.global ≡ record { limit = 0; pin = replicate 8 0 }) }
    ensures random { IfOk result (λ start. start.random ≡ replicate 32 0) }
    ensures spells { IfOk result (λ start. SpellsMemory start) }
{
    let objects = plain_objects(alloc)?;
    Ok(Start {
        pin: [0x31, 0x32, 0x33, 0x34, 0x35, 0x36, 0xFF, 0xFF],
        puk: [0x31, 0x32, 0x33, 0x34, 0x35, 0x36, 0x37, 0x38],
        limit_pin: 3,
        limit_puk: 3,
        global: NO_GLOBAL_PIN,
        admin: ADMIN_KEY,
        card_auth: CARD_AUTHENTICATION_KEY,
        budget: MOST_BLOCKS as u16,
        random: [0; 32],
        objects,
    })
}
