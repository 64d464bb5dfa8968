// Scripts beside each other.
ghost use Rattle.std.specs.Prelude.{◌≡◌, ◌<◌, ℕ, [], All, length, slice_index_or};
ghost use Rattle.turnstile_rows.specs.Rows.{ArePassesOf};
ghost use Rattle.client_api.specs.Players.{AreNamesOn};
ghost use Rattle.client_threads.specs.Passes.{StandsOwn};
ghost use Rattle.threaded_runs.specs.Workers.{IsHired, HasPlayed};

use crate::worker::{Worker, play};
use client_api::Readers;
use client_threads::{Gates, HeldCell};
use piv_model::Store;
use std::alloc::Global;
use std::sync::Wait;
use std::thread;
use std::thread::Threads;
use turnstile::Turnstile;

// Plays each script to its end, with as many threads as scripts.
pub(crate) fn play_beside<G: Gates + Send + Sync, R: Threads + Wait + Sync, S: Store + Send>(
    rt: &R,
    alloc: Global,
    turnstiles: &[Turnstile<HeldCell<S>>],
    readers: &Readers,
    workers: &mut [Worker<'_, S>],
)
    requires gates { turnstiles.now ≡ G.gates }
    requires own { ArePassesOf G.gates G.passes }
    requires new { StandsOwn G.passes [] }
    requires names { AreNamesOn (length G.gates) readers.now }
    requires hired { All (λ w. IsHired G.passes w.player w.passes.items) workers.old }
    ensures many { length workers.new ≡ length workers.old }
    ensures played { (k : ℕ) (d : _) → k < length workers.old → HasPlayed readers.now G.gates G.passes
        (slice_index_or workers.old k d).player.lines (slice_index_or workers.new k d).player
        (slice_index_or workers.new k d).passes.items (slice_index_or workers.new k d).refused }
{
    let threads = workers.len().max(1);
    thread::for_each_mut(
        rt,
        workers,
        threads,
        &|_, worker| play::<G, R, S>(rt, alloc, turnstiles, readers, worker),
    );
}
