// The players of scripts, and their answers.
ghost use Rattle.std.specs.Prelude.{◌≡◌, ◌≤◌, ℕ, [], List, length, map, vec_capacity, slice_get, Some, IfOk};
ghost use Rattle.script_line.specs.Playable.{ArePlayable};
ghost use Rattle.script_line.specs.declared.line.Line.{Line};
ghost use Rattle.script_runs.specs.Progress.{AreBegun, answers_of as given, scripts_of};
ghost use Rattle.script_runs.specs.Turns.{AllPlayable};

use client_api::Player;
use piv_model::{ApiAnswer, NoMemory};
use script_line::Script;
use std::alloc::Global;

/// A player at the beginning of each script.
pub fn players_of<'a>(alloc: Global, scripts: &'a [Script]) -> Result<Vec<Player<'a>>, NoMemory>
    requires { AllPlayable (map (λ s. s.lines) scripts.now) }
    ensures begun { IfOk result (λ players. AreBegun players.items) }
    ensures scripts { IfOk result (λ players. scripts_of players.items ≡ map (λ s. s.lines) scripts.entry.now) }
{
    let mut players = Vec::with_capacity(alloc, scripts.len())?;
    for script in scripts {
        players.push(Player::new(alloc, script)?)?;
    }
    Ok(players)
}

/// The answers of the players, in a vector that has room for them.
pub fn answers_of(players: Vec<Player<'_>>, room: Vec<Vec<ApiAnswer>>) -> Vec<Vec<ApiAnswer>>
    requires empty { room.items ≡ [] }
    requires room { length players.items ≤ vec_capacity room }
    ensures { map (λ v. v.items) result.items ≡ given players.entry.items }
{
    let mut answers = room;
    for player in players {
        answers.push_reserved(player.into_answers());
    }
    answers
}
