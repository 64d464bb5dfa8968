// The cells that are tested.
ghost use Rattle.power_loss.specs.Due.{RisesFrom};
ghost use Rattle.power_loss.specs.Plans.{write_numbers};

use card_cell::CardCell;
use card_image::{Image, Objects};
use memory_store::MemoryStore;
use nvm_device::{Fused, Loss, MemNvm};
use piv_model::{Found, plain_start};
use std::alloc::Global;
use std::test::Fail;

// The plain card in memory.
pub(crate) fn plain_cell(alloc: Global, turns: usize) -> Result<CardCell<MemoryStore>, Fail> {
    let start = plain_start(alloc)?;
    let store = MemoryStore::new(alloc, &start, Vec::new(alloc))?;
    match CardCell::new(alloc, store, &start.random, turns.min(1_000_000)) {
        Ok(cell) => Ok(cell),
        Err(_) => Err(Fail::from("no memory")),
    }
}

// The plain card on a device that loses power at these writes after it was personalised.
pub(crate) fn losing_cell<O: Objects>(
    alloc: Global,
    turns: usize,
    losses: Vec<Loss>,
) -> Result<CardCell<Image<Fused<MemNvm>, O>>, Fail>
    requires rises { RisesFrom 0 (write_numbers losses.items) }
{
    let start = plain_start(alloc)?;
    let blank = MemNvm::new(alloc, 1_114_112)?;
    let Ok(store) = Image::<MemNvm, O>::personalise(blank, &start) else {
        return Err(Fail::from("lost"));
    };
    let worn = Fused::new(store.into_inner(), losses);
    let Found::Card(store) = Image::<Fused<MemNvm>, O>::look(worn) else {
        return Err(Fail::from("no card"));
    };
    match CardCell::new(alloc, store, &start.random, turns.min(1_000_000)) {
        Ok(cell) => Ok(cell),
        Err(_) => Err(Fail::from("no memory")),
    }
}
