// One card on one device.
ghost use Rattle.std.specs.Prelude.{◌≡◌, ◌≤◌, IfSome, IfOk, IfErr};
ghost use Rattle.power_loss.specs.Due.{RisesFrom};
ghost use Rattle.power_loss.specs.Plans.{write_numbers};
ghost use Rattle.piv_model.specs.Starts.{SpellsMemory, memory_of_start};
ghost use Rattle.piv_rules.specs.Acts.{Records};
ghost use Rattle.card_image.specs.Images.{IsImage};
ghost use Rattle.block_store.specs.Blocks.{block_form};
ghost use Rattle.block_store.specs.Devices.{IsFaulted, IsReady};
ghost use Rattle.card_cell.specs.declared.base.CellBase.{CellBase};
ghost use Rattle.card_cell.specs.Cells.{history_of};
ghost use Rattle.card_cell.specs.Holds.{IsHeld};
ghost use Rattle.scene_cells.specs.Cells.{device_in};
ghost use Rattle.scene_cells.specs.Raised.{IsCellOf, IsPersonal, IsRaised, IsSpared};
ghost use Rattle.scene_cells.specs.Lowered.{IsLeft};

use crate::fault::RunFault;
use block_store::BlockStore;
use card_app::CardFault;
use card_cell::CardCell;
use nvm_device::{Fused, Loss, Nvm};
use piv_model::{History, Start};
use scene_cards::copy_plan;
use std::alloc::Global;

/// The cell of a scene's card: over a device that keeps the card in blocks, and loses the writes of the card's plan.
pub type SceneCell<N> = CardCell<BlockStore<Fused<N>>>;

// A device on which no cell stands, and why.
#[derive(Drop)]
pub(crate) struct Refused<N> {
    pub(crate) nvm: N,
    pub(crate) fault: RunFault,
}

// Personalises a device.
fn personalise<N: Nvm + Drop>(nvm: N, start: &Start) -> Result<N, N>
    requires ready { IsReady (N.state nvm) }
    requires spells { SpellsMemory start.now }
    ensures ok { IfOk result (λ device. IsPersonal start.now (N.state nvm) (N.state device)) }
    ensures err { IfErr result (λ device. IsFaulted (memory_of_start start.now) (N.state nvm) (N.state device)) }
{
    match BlockStore::personalise(nvm, start) {
        Ok(store) => Ok(store.into_inner()),
        Err(nvm) => Err(nvm),
    }
}

// A cell over a device that stands for a card.
fn cell_over<N: Nvm + Drop>(
    alloc: Global,
    nvm: N,
    plan: Vec<Loss>,
    random: &[u8; 32],
    turns: usize,
) -> Result<SceneCell<N>, N>
    requires ready { IsReady (N.state nvm) }
    requires image { IfSome (N.state nvm).bytes (λ row. IsImage block_form row) }
    requires rises { RisesFrom 0 (write_numbers plan.items) }
    requires few { turns ≤ 1000000 }
    ensures ok { IfOk result (λ cell. IsCellOf random.now (write_numbers plan.items) turns (N.state nvm) cell) }
    ensures device { IfOk result (λ cell. device_in cell ≡ nvm) }
    ensures err { IfErr result (λ device. device ≡ nvm) }
{
    let store = BlockStore::adopt(Fused::new(nvm, plan));
    match CardCell::new(alloc, store, random, turns) {
        Ok(cell) => Ok(cell),
        Err(CardFault::NoMemory(store)) => Err(store.into_inner().into_inner()),
    }
}

// Personalises a device as a card begins, and makes the card's cell over it. Tells how often the device had lost power.
pub(crate) fn raise_card<N: Nvm + Drop>(
    alloc: Global,
    nvm: N,
    start: &Start,
    losses: &[Loss],
    turns: usize,
) -> Result<(SceneCell<N>, u64), Refused<N>>
    requires ready { IsReady (N.state nvm) }
    requires spells { SpellsMemory start.now }
    requires rises { RisesFrom 0 (write_numbers losses.now) }
    requires few { turns ≤ 1000000 }
    ensures ok { IfOk result (λ made. IsRaised start.now losses.now turns made.1 (N.state nvm) made.0) }
    ensures personal { IfOk result (λ made. IsPersonal start.now (N.state nvm) (N.state (device_in made.0))) }
    ensures spared { IfErr result (λ refused. refused.fault ≡ RunFault.NoMemory
        → IsSpared start.now (N.state nvm) (N.state refused.nvm)) }
    ensures device { IfErr result (λ refused. refused.fault ≡ RunFault.Device
        → IsFaulted (memory_of_start start.now) (N.state nvm) (N.state refused.nvm)) }
{
    let Ok(plan) = copy_plan(alloc, losses) else {
        return Err(Refused {
            nvm,
            fault: RunFault::NoMemory,
        });
    };
    let lost = nvm.lost();
    let nvm = match personalise(nvm, start) {
        Ok(nvm) => nvm,
        Err(nvm) => {
            return Err(Refused {
                nvm,
                fault: RunFault::Device,
            });
        }
    };
    match cell_over(alloc, nvm, plan, &start.random, turns) {
        Ok(cell) => Ok((cell, lost)),
        Err(nvm) => Err(Refused {
            nvm,
            fault: RunFault::NoMemory,
        }),
    }
}

// Takes a cell down: its device and its history.
pub(crate) fn lower<N: Nvm + Drop>(cell: SceneCell<N>) -> (N, History)
    ensures device { result.0 ≡ device_in cell }
    ensures size { 1114112 ≤ (N.state result.0).size }
    ensures left { (base : CellBase) (R : Records) → IsHeld block_form.put_cost cell base R
        → IsLeft base R (N.state (device_in cell)) }
    ensures history { result.1.past ≡ history_of cell }
{
    let (store, history) = cell.into_parts();
    (store.into_inner().into_inner(), history)
}
