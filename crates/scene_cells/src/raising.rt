// The cells of a scene's cards.
ghost use Rattle.std.specs.Prelude.{◌≡◌, ◌≤◌, ◌+◌, [], length, drop, vec_len, vec_capacity, OnOk, IfOk, IfErr};
ghost use Rattle.std.specs.List.{All};
ghost use Rattle.block_store.specs.Devices.{IsReady};
ghost use Rattle.scene_cells.specs.Cells.{device_in};
ghost use Rattle.scene_cells.specs.Raised.{AreBack, AreRaised};
ghost use Rattle.scene_cells.specs.Turns.{scene_turns as scene_turns_of};

use crate::card::raise_card;
use crate::fault::RunFault;
use crate::first::{put_first, take_first};
use crate::handing::hand_back;
use crate::turns::scene_turns;
use block_store::BlockStore;
use card_cell::CardCell;
use nvm_device::{Fused, Nvm};
use piv_model::{History, Store};
use piv_scene::Scene;
use std::alloc::Global;

/// The cells of a scene's cards, the first card's first; how often each device had lost power before; and no history
/// yet, with room for one of each cell.
#[derive(Drop)]
pub struct Raised<S: Store> {
    pub cells: Vec<CardCell<S>>,
    pub losses: Vec<u64>,
    pub histories: Vec<History>,
}

/// Takes a device for each card of the scene, the first for the first one, personalises it, and makes the card's cell
/// over it. Where that can't be done, the devices are in their places again.
pub fn raise<N: Nvm + Drop>(
    alloc: Global,
    scene: &Scene,
    devices: &mut Vec<N>,
) -> Result<Raised<BlockStore<Fused<N>>>, RunFault>
    requires enough { length scene.now.cards ≤ length devices.old.items }
    requires ready { All (λ device. IsReady (N.state device)) devices.old.items }
    ensures ok { IfOk result (λ raised. AreRaised N.state (λ cell. device_in cell) (scene_turns_of scene.now.scripts)
        scene.now.cards devices.old.items raised.losses.items raised.cells.items) }
    ensures rest { OnOk result (devices.new.items ≡ drop (length scene.now.cards) devices.old.items) }

    // The cells can be handed back.
    ensures place { IfOk result (λ raised. length raised.cells.items + vec_len devices.new ≤ vec_capacity devices.new) }
    ensures empty { IfOk result (λ raised. raised.histories.items ≡ []) }
    ensures room { IfOk result (λ raised. length raised.cells.items ≤ vec_capacity raised.histories) }
    ensures back { IfErr result (λ fault. AreBack N.state scene.now.cards fault devices.old.items devices.new.items) }
{
    let turns = scene_turns(scene);
    let cards = scene.cards();
    let Ok(mut cells) = Vec::with_capacity(alloc, cards) else {
        return Err(RunFault::NoMemory);
    };
    let Ok(mut losses) = Vec::with_capacity(alloc, cards) else {
        return Err(RunFault::NoMemory);
    };
    let Ok(mut histories) = Vec::with_capacity(alloc, cards) else {
        return Err(RunFault::NoMemory);
    };
    for card in 0..cards {
        let nvm = take_first(devices);
        match raise_card(alloc, nvm, scene.start(card), scene.plan(card), turns) {
            Ok(made) => {
                cells.push_reserved(made.0);
                losses.push_reserved(made.1);
            }
            Err(refused) => {
                put_first(devices, refused.nvm);
                hand_back(cells, devices, &mut histories);
                return Err(refused.fault);
            }
        }
    }
    Ok(Raised {
        cells,
        losses,
        histories,
    })
}
