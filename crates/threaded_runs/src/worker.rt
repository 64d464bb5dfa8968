// A script in a thread.
ghost use Rattle.std.specs.Prelude.{◌≡◌, [], length};
ghost use Rattle.turnstile_rows.specs.Rows.{ArePassesOf};
ghost use Rattle.client_api.specs.Players.{AreNamesOn};
ghost use Rattle.script_runs.specs.Progress.{begun};
ghost use Rattle.client_threads.specs.Passes.{StandsOwn};
ghost use Rattle.threaded_runs.specs.Workers.{HasPlayed};

use client_api::{Player, Readers};
use client_threads::{Client, Gates, HeldCell};
use piv_model::Store;
use script_runs::play_alone;
use std::alloc::Global;
use std::mem;
use std::sync::Wait;
use turnstile::{Pass, Turnstile};

/// A script's player with a pass for each card, and whether it was refused memory.
#[derive(Drop)]
pub(crate) struct Worker<'a, S: Store> {
    pub(crate) player: Player<'a>,
    pub(crate) passes: Vec<Pass<HeldCell<S>>>,
    pub(crate) refused: bool,
}

// Plays the script to its end, or until memory is refused.
pub(crate) fn play<G: Gates, R: Wait, S: Store>(
    rt: &R,
    alloc: Global,
    turnstiles: &[Turnstile<HeldCell<S>>],
    readers: &Readers,
    worker: &mut Worker<'_, S>,
)
    requires gates { turnstiles.now ≡ G.gates }
    requires own { ArePassesOf G.gates G.passes }
    requires new { StandsOwn G.passes [] }
    requires names { AreNamesOn (length G.gates) readers.now }
    requires passes { worker.old.passes.items ≡ G.passes }
    requires begun { worker.old.player ≡ begun worker.old.player.lines }
    ensures { HasPlayed readers.now G.gates G.passes worker.old.player.lines worker.new.player worker.new.passes.items
        worker.new.refused }
{
    let passes = mem::replace(&mut worker.passes, Vec::new(alloc));
    let mut client: Client<'_, R, S, G> = Client::new(rt, turnstiles, passes);
    worker.refused = play_alone(&mut worker.player, &mut client, readers).is_err();
    worker.passes = client.into_passes();
}
