// The scripts on the cells of the cards.
ghost use Rattle.std.specs.Prelude.{◌≡◌, [], length, OnOk};
ghost use Rattle.block_store.specs.Blocks.{block_form};
ghost use Rattle.client_api.specs.Players.{AreNamesOn};
ghost use Rattle.scene_readers.specs.SceneNames.{names_of};
ghost use Rattle.script_runs.specs.Progress.{AreBegun, answers_of, scripts_of};
ghost use Rattle.script_runs.specs.Runs.{Run};
ghost use Rattle.cell_port.specs.Owned.{HoldAll, TellAs};
ghost use Rattle.scene_cells.specs.Turns.{scene_turns};
ghost use Rattle.scene_runs.specs.CardRuns.{HaveTurns, lines_of};
ghost use Rattle.piv_bench.specs.Played.{PlayedOn};

use block_store::BlockStore;
use cell_port::{Beginnings, CellPort};
use client_api::{Player, Readers};
use nvm_device::{Fused, Nvm};
use piv_model::NoMemory;
use piv_scene::Scene;
use scene_cells::SceneCell;
use script_runs::play_all;

// Plays the scripts on the cells of the scene's cards, and hands these back.
pub(crate) fn play_on<N: Nvm + Drop, L: Beginnings>(
    scene: &Scene,
    readers: &Readers,
    players: &mut Vec<Player<'_>>,
    cells: Vec<SceneCell<N>>,
) -> (Vec<SceneCell<N>>, Result<(), NoMemory>)
    requires many { length cells.items ≡ length scene.now.cards }
    requires names { readers.now ≡ names_of scene.now.cards }
    requires on { AreNamesOn (length scene.now.cards) readers.now }
    requires begun { AreBegun players.old.items }
    requires scripts { scripts_of players.old.items ≡ lines_of scene.now.scripts }
    requires held { HoldAll block_form.put_cost cells.items L.bases (λ k. []) }
    requires told { TellAs L.tells cells.items }
    requires turns { HaveTurns (scene_turns scene.now.scripts) L.bases }
    ensures many { length result.0.items ≡ length cells.items }
    ensures players { OnOk result.1 (length players.new.items ≡ length players.old.items) }
    ensures played { OnOk result.1 ((run : Run)
        × PlayedOn scene.now (answers_of players.new.items) L.bases L.tells result.0.items run) }
{
    scene.holds();
    let mut port: CellPort<BlockStore<Fused<N>>, L> = CellPort::new(cells);
    let played = play_all(players, scene.schedule(), &mut port, readers);
    (port.into_cells(), played)
}
