// Scripts over turnstiles that stand.
ghost use Rattle.std.specs.Prelude.{◌≡◌, ◌≤◌, [], All, false, length, map, replicate, vec_capacity, IfOk};
ghost use Rattle.turnstile.specs.Known.{first_pass, most_out, split_off};
ghost use Rattle.turnstile_rows.specs.Rows.{ArePassesOf, AreFirst, HaveOut};
ghost use Rattle.client_api.specs.Players.{AreNamesOn};
ghost use Rattle.script_runs.specs.Progress.{AreBegun, scripts_of};
ghost use Rattle.threaded_runs.specs.Shared.{AreShared};

use crate::beside::play_beside;
use crate::worker::Worker;
use client_api::{Player, Readers};
use client_threads::{Gates, HeldCell};
use piv_model::{ApiAnswer, NoMemory, Store};
use std::alloc::Global;
use std::sync::Wait;
use std::thread::Threads;
use turnstile::{Pass, Turnstile};
use turnstile_rows::{deal_all, gather_all};

type Row<S> = Vec<Pass<HeldCell<S>>>;

// A worker for each player, with a row of passes.
fn hire<'a, S: Store>(
    mut players: Vec<Player<'a>>,
    mut rows: Vec<Row<S>>,
    mut workers: Vec<Worker<'a, S>>,
) -> Vec<Worker<'a, S>>
    requires many { length rows.items ≡ length players.items }
    requires empty { workers.items ≡ [] }
    requires room { length players.items ≤ vec_capacity workers }
    ensures players { map (λ w. w.player) result.items ≡ players.entry.items }
    ensures rows { map (λ w. w.passes.items) result.items ≡ map (λ v. v.items) rows.items }
{
    while let Some(player) = players.pop() {
        let passes = rows.pop().unwrap();
        workers.push_reserved(Worker {
            player,
            passes,
            refused: false,
        });
    }
    workers.reverse();
    workers
}

// The rows and the answers of the workers; true where one was refused memory.
fn part<S: Store>(
    workers: Vec<Worker<'_, S>>,
    rows: &mut Vec<Row<S>>,
    answers: &mut Vec<Vec<ApiAnswer>>,
) -> bool
    requires empty { (rows.old.items ≡ []) × (answers.old.items ≡ []) }
    requires rows_room { length workers.items ≤ vec_capacity rows.old }
    requires answers_room { length workers.items ≤ vec_capacity answers.old }
    ensures rows { map (λ v. v.items) rows.new.items ≡ map (λ w. w.passes.items) workers.entry.items }
    ensures answers { map (λ v. v.items) answers.new.items ≡ map (λ w. w.player.answers) workers.entry.items }
    ensures refused { result ≡ false → All (λ w. w.refused ≡ false) workers.entry.items }
{
    let mut any = false;
    for worker in workers {
        let Worker {
            player,
            passes,
            refused,
        } = worker;
        rows.push_reserved(passes);
        answers.push_reserved(player.into_answers());
        any = any || refused;
    }
    any
}

// Plays each script to its end in a thread of its own, with further passes of these turnstiles.
pub(crate) fn play_stood<'a, G: Gates + Send + Sync, R: Threads + Wait + Sync, S: Store + Send>(
    rt: &R,
    alloc: Global,
    turnstiles: &[Turnstile<HeldCell<S>>],
    firsts: &mut Row<S>,
    players: Vec<Player<'a>>,
    readers: &Readers,
    mut answers: Vec<Vec<ApiAnswer>>,
) -> Result<Vec<Vec<ApiAnswer>>, NoMemory>
    requires gates { turnstiles.now ≡ G.gates }
    requires firsts { firsts.old.items ≡ map first_pass G.gates }
    requires passes { G.passes ≡ map split_off (map first_pass G.gates) }
    requires own { ArePassesOf turnstiles.now firsts.old.items }
    requires first { AreFirst firsts.old.items }
    requires out { HaveOut 0 firsts.old.items }
    requires begun { AreBegun players.items }
    requires few { length players.items ≤ most_out }
    requires names { AreNamesOn (length G.gates) readers.now }
    requires empty { answers.items ≡ [] }
    requires room { length players.items ≤ vec_capacity answers }
    ensures own { ArePassesOf turnstiles.now firsts.new.items }
    ensures first { AreFirst firsts.new.items }
    ensures out { HaveOut 0 firsts.new.items }
    ensures shared { IfOk result (λ answers. AreShared readers.now (scripts_of players.entry.items) G.gates
        firsts.new.items (map (λ v. v.items) answers.items)) }
{
    let count = players.len();
    let Ok(workers) = Vec::with_capacity(alloc, count) else {
        return Err(NoMemory);
    };
    let Ok(mut back) = Vec::with_capacity(alloc, count) else {
        return Err(NoMemory);
    };
    let Ok(rows) = deal_all(alloc, turnstiles, firsts, count) else {
        return Err(NoMemory);
    };
    let mut workers = hire(players, rows, workers);
    play_beside::<G, R, S>(rt, alloc, turnstiles, readers, &mut workers);
    let refused = part(workers, &mut back, &mut answers);
    gather_all(turnstiles, firsts, back);
    if refused {
        return Err(NoMemory);
    }
    Ok(answers)
}
