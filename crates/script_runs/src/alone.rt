// One script by itself.
ghost use Rattle.std.specs.Prelude.{◌≡◌, ◌≤◌, ℕ, [], List, OnOk};
ghost use Rattle.client_api.specs.Playing.{Move};
ghost use Rattle.client_api.specs.Players.{AreNamesOn};
ghost use Rattle.script_runs.specs.Alone.{PlaysAlone};
ghost use Rattle.script_runs.specs.Progress.{begun};

use client_api::{Player, Port, Readers};
use piv_model::NoMemory;

/// Plays one script to its end, over a port that stands for no records. At want of memory the port's cards are as they
/// were.
pub fn play_alone<P: Port>(
    player: &mut Player<'_>,
    port: &mut P,
    readers: &Readers,
) -> Result<(), NoMemory>
    requires begun { player.old ≡ begun player.old.lines }
    requires names { AreNamesOn (P.cards port.old) readers.now }
    ensures played { OnOk result (P.stands port.old [] → (moves : List Move) ×
        PlaysAlone readers.now player.old.lines player.new (P.stands port.new) (P.cards port.new) (P.seen port.new)
        (P.turns port.new) moves) }
    ensures cards { P.cards port.new ≡ P.cards port.old }
    ensures bases { P.bases port.new ≡ P.bases port.old }
    ensures turns { (card : ℕ) → P.turns port.new card ≡ P.turns port.old card }
    ensures seen { (card : ℕ) → P.seen port.old card ≤ P.seen port.new card }
{
    while player.step(port, readers)? {}
    Ok(())
}
