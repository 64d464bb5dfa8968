//! What cards begin with in tests: the plain card's start, with one thing changed.
#![tactic(auto)]

ghost use Rattle.std.specs.Prelude.{◌≤◌, IfOk};
ghost use Rattle.piv_model.specs.Starts.{SpellsMemory};

use piv_model::{NoMemory, Start, StartGlobal, plain_start};
use std::alloc::Global;

/// The Global PIN of `global_start`: 987654.
pub const GLOBAL_PIN: [u8; 8] = [0x39, 0x38, 0x37, 0x36, 0x35, 0x34, 0xFF, 0xFF];

/// The plain card's start, with a budget of five blocks, of which its objects take three.
pub fn small_start(alloc: Global) -> Result<Start, NoMemory>
    ensures { IfOk result (λ start. SpellsMemory start) }
{
    let mut start = plain_start(alloc)?;
    start.budget = 5;
    Ok(start)
}

/// The plain card's start, with so many tries for its PIN and its PUK.
pub fn limited_start(alloc: Global, limit: u8) -> Result<Start, NoMemory>
    requires low { 1 ≤ limit }
    requires high { limit ≤ 15 }
    ensures { IfOk result (λ start. SpellsMemory start) }
{
    let mut start = plain_start(alloc)?;
    start.limit_pin = limit;
    start.limit_puk = limit;
    Ok(start)
}

/// The plain card's start, with a Global PIN of so many tries.
pub fn global_start(alloc: Global, limit: u8) -> Result<Start, NoMemory>
    requires low { 1 ≤ limit }
    requires high { limit ≤ 15 }
    ensures { IfOk result (λ start. SpellsMemory start) }
{
    let mut start = plain_start(alloc)?;
    start.global = StartGlobal {
        limit,
        pin: GLOBAL_PIN,
    };
    Ok(start)
}
