// What a run takes besides its cells.
ghost use Rattle.std.specs.Prelude.{◌≡◌, ◌≤◌, [], length, vec_capacity, IfOk};
ghost use Rattle.client_api.specs.Players.{AreNamesOn};
ghost use Rattle.scene_readers.specs.SceneNames.{names_of};
ghost use Rattle.script_runs.specs.Progress.{AreBegun, scripts_of};
ghost use Rattle.script_runs.specs.Turns.{AllPlayable};
ghost use Rattle.scene_runs.specs.CardRuns.{lines_of};

use client_api::{Player, Readers};
use piv_model::{ApiAnswer, NoMemory};
use piv_scene::Scene;
use scene_readers::readers_of;
use script_runs::players_of;
use std::alloc::Global;

/// What a run takes besides its cells: the readers of the cards, a player at the beginning of each script, and room for
/// the answers of each.
#[derive(Drop)]
pub struct Prepared<'a> {
    pub readers: Readers,
    pub players: Vec<Player<'a>>,
    pub room: Vec<Vec<ApiAnswer>>,
}

/// Prepares a run of a scene.
pub fn prepare<'a>(alloc: Global, scene: &'a Scene) -> Result<Prepared<'a>, NoMemory>
    ensures names { IfOk result (λ p. p.readers ≡ names_of scene.entry.now.cards) }
    ensures on { IfOk result (λ p. AreNamesOn (length scene.entry.now.cards) p.readers) }
    ensures begun { IfOk result (λ p. AreBegun p.players.items) }
    ensures scripts { IfOk result (λ p. scripts_of p.players.items ≡ lines_of scene.entry.now.scripts) }
    ensures empty { IfOk result (λ p. p.room.items ≡ []) }
    ensures room { IfOk result (λ p. length p.players.items ≤ vec_capacity p.room) }
{
    scene.holds();
    let readers = readers_of(alloc, scene)?;
    let players = players_of(alloc, scene.all_scripts())?;
    let room = Vec::with_capacity(alloc, scene.scripts())?;
    Ok(Prepared {
        readers,
        players,
        room,
    })
}
