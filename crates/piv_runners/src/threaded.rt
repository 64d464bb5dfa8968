// A scene on devices, each script in a thread.
ghost use Rattle.std.specs.Prelude.{◌≡◌, ◌≤◌, ◌+◌, ℕ, List, [], length, map, drop, vec_len, vec_capacity, Err, IfOk};
ghost use Rattle.std.specs.List.{All};
ghost use Rattle.piv_rules.specs.Acts.{Records};
ghost use Rattle.block_store.specs.Blocks.{block_form};
ghost use Rattle.block_store.specs.Devices.{IsReady, OthersStand};
ghost use Rattle.client_api.specs.Players.{AreNamesOn};
ghost use Rattle.client_api.specs.Playing.{Move};
ghost use Rattle.scene_readers.specs.SceneNames.{names_of};
ghost use Rattle.script_runs.specs.Progress.{AreBegun, scripts_of};
ghost use Rattle.cell_port.specs.Owned.{HoldAll};
ghost use Rattle.scene_cells.specs.Raised.{AreBack, HasFault, cell_bases};
ghost use Rattle.scene_cells.specs.Turns.{scene_turns};
ghost use Rattle.scene_runs.specs.CardRuns.{lines_of};
ghost use Rattle.piv_runners.specs.Played.{AreLeftTogether};
ghost use Rattle.piv_runners.specs.Together.{RanTogether};

use crate::play::play_on;
use block_store::BlockStore;
use nvm_device::{Fused, Nvm};
use piv_model::NoMemory;
use piv_scene::Scene;
use scene_cells::{Raised, RunFault, hand_back, raise};
use scene_runs::{Prepared, RunOut, prepare};
use std::alloc::Global;
use std::sync::Wait;
use std::thread::Threads;

/// Runs a scene, each script in a thread of its own. Device k is personalised as card k; there are at least eight
/// devices, each on and of at least 1,114,112 bytes. Under every answer the devices are in their places again. `Device`
/// comes only where a card's device lost power while it was personalised.
pub fn at_once<R: Threads + Wait + Sync, N: Nvm + Drop + Send>(
    rt: &R,
    alloc: Global,
    scene: &Scene,
    devices: &mut Vec<N>,
) -> Result<RunOut, RunFault>
    requires eight { 8 ≤ length devices.old.items }
    requires ready { All (λ device. IsReady (N.state device)) devices.old.items }

    // The scripts with their answers, the cards with their histories, and the devices.
    ensures ran { IfOk result (λ out. (records : ℕ → Records) × (shares : ℕ → List Move)
        × RanTogether N.state scene.now devices.old.items devices.new.items
        (map (λ answers. answers.items) out.answers.items) (map (λ h. h.past) out.cards.items) records shares) }

    // Why there was no run, and what the devices are then.
    ensures device { result ≡ Err RunFault.Device
        → HasFault N.state scene.now.cards devices.old.items devices.new.items }
    ensures back { result ≡ Err RunFault.Device
        → AreBack N.state scene.now.cards RunFault.Device devices.old.items devices.new.items }

    // What they are under every answer.
    ensures others { OthersStand (length scene.now.cards) devices.old.items devices.new.items }
    ensures sizes { All (λ device. 1114112 ≤ (N.state device).size) devices.new.items }
{
    scene.holds();
    let Ok(prepared) = prepare(alloc, scene) else {
        return Err(RunFault::NoMemory);
    };
    match raise(alloc, scene, devices) {
        Ok(raised) => run_raised(rt, alloc, scene, prepared, raised, devices),
        Err(fault) => Err(fault),
    }
}

// Plays the scripts on cells that were raised, and takes these down again.
fn run_raised<R: Threads + Wait + Sync, N: Nvm + Drop + Send>(
    rt: &R,
    alloc: Global,
    scene: &Scene,
    prepared: Prepared<'_>,
    raised: Raised<BlockStore<Fused<N>>>,
    devices: &mut Vec<N>,
) -> Result<RunOut, RunFault>
    requires names { prepared.readers ≡ names_of scene.now.cards }
    requires on { AreNamesOn (length scene.now.cards) prepared.readers }
    requires begun { AreBegun prepared.players.items }
    requires scripts { scripts_of prepared.players.items ≡ lines_of scene.now.scripts }
    requires nothing { prepared.room.items ≡ [] }
    requires room { length prepared.players.items ≤ vec_capacity prepared.room }
    requires many { length raised.cells.items ≡ length scene.now.cards }
    requires counts { length raised.losses.items ≡ length scene.now.cards }
    requires held { HoldAll block_form.put_cost raised.cells.items
        (cell_bases (scene_turns scene.now.scripts) scene.now.cards raised.losses.items) (λ k. []) }
    requires place { length raised.cells.items + vec_len devices.old ≤ vec_capacity devices.old }
    requires empty { raised.histories.items ≡ [] }
    requires histories { length raised.cells.items ≤ vec_capacity raised.histories }
    ensures ran { IfOk result (λ out. (records : ℕ → Records) × (shares : ℕ → List Move)
        × AreLeftTogether N.state scene.now
        (cell_bases (scene_turns scene.now.scripts) scene.now.cards raised.losses.items) devices.new.items
        (map (λ answers. answers.items) out.answers.items) (map (λ h. h.past) out.cards.items) records shares) }
    ensures fault { result ≡ Err RunFault.Device → ⊥ }
    ensures many { length devices.new.items ≡ length raised.cells.items + length devices.old.items }
    ensures others { drop (length raised.cells.items) devices.new.items ≡ devices.old.items }
    ensures sizes { All (λ device. 1114112 ≤ (N.state device).size) devices.old.items
        → All (λ device. 1114112 ≤ (N.state device).size) devices.new.items }
{
    let Raised {
        cells,
        losses,
        mut histories,
    } = raised;
    let (cells, played) = play_on(rt, alloc, scene, &losses, prepared, cells);
    hand_back(cells, devices, &mut histories);
    match played {
        Ok(answers) => Ok(RunOut {
            answers,
            cards: histories,
        }),
        Err(NoMemory) => Err(RunFault::NoMemory),
    }
}
