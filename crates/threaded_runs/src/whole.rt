// A run in threads, from cells to cells.
ghost use Rattle.std.specs.Prelude.{◌≡◌, ◌≤◌, [], length, map, vec_capacity, IfOk, IfErr};
ghost use Rattle.turnstile.specs.Known.{first_pass, most_out};
ghost use Rattle.turnstile_rows.specs.Rows.{bases_of};
ghost use Rattle.client_api.specs.Players.{AreNamesOn};
ghost use Rattle.script_runs.specs.Progress.{AreBegun, scripts_of};
ghost use Rattle.cell_port.specs.Owned.{HoldAll};
ghost use Rattle.threaded_runs.specs.AtOnce.{HasRun, StillHold};

use crate::cells::{hold, release};
use crate::stood::play_stood;
use card_cell::{CardCell, CellBase};
use client_api::{Player, Readers};
use client_threads::HeldCell;
use piv_model::{ApiAnswer, Store};
use std::alloc::Global;
use std::marker::Brand;
use std::sync::Wait;
use std::thread::Threads;
use turnstile_rows::{Stood, close_all, stand};

/// The cells after a run, and the answers of each script.
pub struct AtOnce<S: Store> {
    pub cells: Vec<CardCell<S>>,
    pub answers: Vec<Vec<ApiAnswer>>,
}

/// Plays each script to its end in a thread of its own, over these cells, with room for the answers. Where memory is
/// wanting the cells come back.
pub fn play_at_once<R: Threads + Wait + Sync, S: Store + Send>(
    rt: &R,
    alloc: Global,
    mut cells: Vec<CardCell<S>>,
    bases: &[CellBase],
    players: Vec<Player<'_>>,
    readers: &Readers,
    answers: Vec<Vec<ApiAnswer>>,
) -> Result<AtOnce<S>, Vec<CardCell<S>>>
    requires held { HoldAll S.put_cost cells.items bases.now (λ k. []) }
    requires begun { AreBegun players.items }
    requires few { length players.items ≤ most_out }
    requires names { AreNamesOn (length bases.now) readers.now }
    requires empty { answers.items ≡ [] }
    requires room { length players.items ≤ vec_capacity answers }
    ensures ok { IfOk result (λ run. HasRun S.put_cost readers.entry.now (scripts_of players.entry.items)
        bases.entry.now run.cells.items (map (λ v. v.items) run.answers.items)) }
    ensures err { IfErr result (λ back. StillHold S.put_cost bases.entry.now back.items) }
{
    let Ok(room) = Vec::with_capacity(alloc, cells.len()) else {
        return Err(cells);
    };
    let held = hold(&mut cells, room);
    match stand(alloc, held, bases) {
        Ok(stood) => play_over(rt, alloc, stood, cells, players, readers, answers),
        Err(held) => Err(release(held, cells)),
    }
}

// Over cells that stand behind turnstiles, with room for them and for the answers.
fn play_over<R: Threads + Wait + Sync, S: Store + Send>(
    rt: &R,
    alloc: Global,
    stood: Stood<HeldCell<S>>,
    cells: Vec<CardCell<S>>,
    players: Vec<Player<'_>>,
    readers: &Readers,
    answers: Vec<Vec<ApiAnswer>>,
) -> Result<AtOnce<S>, Vec<CardCell<S>>>
    requires firsts { stood.firsts.items ≡ map first_pass stood.turnstiles.items }
    requires room { (stood.room.items ≡ []) × (length stood.turnstiles.items ≤ vec_capacity stood.room) }
    requires cells_room { (cells.items ≡ []) × (length stood.turnstiles.items ≤ vec_capacity cells) }
    requires begun { AreBegun players.items }
    requires few { length players.items ≤ most_out }
    requires names { AreNamesOn (length stood.turnstiles.items) readers.now }
    requires answers_room { (answers.items ≡ []) × (length players.items ≤ vec_capacity answers) }
    ensures ok { IfOk result (λ run. HasRun S.put_cost readers.entry.now (scripts_of players.entry.items)
        (bases_of stood.turnstiles.items) run.cells.items (map (λ v. v.items) run.answers.items)) }
    ensures err { IfErr result (λ back. StillHold S.put_cost (bases_of stood.turnstiles.items) back.items) }
{
    let Stood {
        turnstiles,
        mut firsts,
        room,
    } = stood;
    let played = play_stood::<Brand, R, S>(
        rt,
        alloc,
        turnstiles.as_slice(),
        &mut firsts,
        players,
        readers,
        answers,
    );
    let cells = release(close_all(turnstiles, firsts, room), cells);
    match played {
        Ok(answers) => Ok(AtOnce { cells, answers }),
        Err(_) => Err(cells),
    }
}
