// The scripts on the cells of the cards, each in a thread of its own.
ghost use Rattle.std.specs.Prelude.{◌≡◌, ◌≤◌, ℕ, [], List, length, map, vec_capacity, IfOk};
ghost use Rattle.piv_rules.specs.Acts.{Records};
ghost use Rattle.block_store.specs.Blocks.{block_form};
ghost use Rattle.client_api.specs.Players.{AreNamesOn};
ghost use Rattle.client_api.specs.Playing.{Move};
ghost use Rattle.scene_readers.specs.SceneNames.{names_of};
ghost use Rattle.script_runs.specs.Progress.{AreBegun, scripts_of};
ghost use Rattle.cell_port.specs.Owned.{HoldAll};
ghost use Rattle.scene_cells.specs.Raised.{cell_bases};
ghost use Rattle.scene_cells.specs.Turns.{scene_turns};
ghost use Rattle.scene_runs.specs.CardRuns.{lines_of};
ghost use Rattle.piv_runners.specs.Played.{PlayedOver};

use crate::bases::bases_of;
use nvm_device::Nvm;
use piv_model::{ApiAnswer, NoMemory};
use piv_scene::Scene;
use scene_cells::SceneCell;
use scene_runs::Prepared;
use std::alloc::Global;
use std::sync::Wait;
use std::thread::Threads;
use threaded_runs::{AtOnce, play_at_once};

// Plays the scripts on the cells of the scene's cards, and hands these back with the answers of each script.
pub(crate) fn play_on<R: Threads + Wait + Sync, N: Nvm + Drop + Send>(
    rt: &R,
    alloc: Global,
    scene: &Scene,
    losses: &[u64],
    prepared: Prepared<'_>,
    cells: Vec<SceneCell<N>>,
) -> (Vec<SceneCell<N>>, Result<Vec<Vec<ApiAnswer>>, NoMemory>)
    requires counts { length losses.now ≡ length scene.now.cards }
    requires names { prepared.readers ≡ names_of scene.now.cards }
    requires on { AreNamesOn (length scene.now.cards) prepared.readers }
    requires begun { AreBegun prepared.players.items }
    requires scripts { scripts_of prepared.players.items ≡ lines_of scene.now.scripts }
    requires nothing { prepared.room.items ≡ [] }
    requires room { length prepared.players.items ≤ vec_capacity prepared.room }
    requires held { HoldAll block_form.put_cost cells.items
        (cell_bases (scene_turns scene.now.scripts) scene.now.cards losses.now) (λ k. []) }
    ensures many { length result.0.items ≡ length scene.entry.now.cards }
    ensures played { IfOk result.1 (λ answers. (records : ℕ → Records) × (shares : ℕ → List Move)
        × PlayedOver scene.entry.now
        (cell_bases (scene_turns scene.entry.now.scripts) scene.entry.now.cards losses.entry.now)
        result.0.items (map (λ v. v.items) answers.items) records shares) }
{
    scene.holds();
    let Prepared {
        readers,
        players,
        room,
    } = prepared;
    let Ok(bases) = bases_of(alloc, scene, losses) else {
        return (cells, Err(NoMemory));
    };
    match play_at_once(rt, alloc, cells, &bases, players, &readers, room) {
        Ok(AtOnce { cells, answers }) => (cells, Ok(answers)),
        Err(cells) => (cells, Err(NoMemory)),
    }
}
