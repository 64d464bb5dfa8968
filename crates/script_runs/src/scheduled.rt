// The scheduled run.
ghost use Rattle.std.specs.Prelude.{◌≡◌, ◌≤◌, ◌<◌, ◌++◌, ℕ, [], List, All, length, reverse, false, true, Ok, IfOk, OnOk};
ghost use Rattle.client_api.specs.Players.{AreNamesOn};
ghost use Rattle.script_runs.specs.Progress.{AllReady, all_left, AreBegun, EndsIn, GoesOn, HasRoom, PortAt, Ran, Rounded, scripts_of, StandFor, StepOne};
ghost use Rattle.script_runs.specs.Runs.{Run, Scripts, round as round_of};

use client_api::{Player, Port, Readers};
use piv_model::NoMemory;

// The next step of one script; false where it had ended.
fn step_one<P: Port>(
    players: &mut Vec<Player<'_>>,
    k: usize,
    port: &mut P,
    readers: &Readers,
) -> Result<bool, NoMemory>
    requires inside { k < length players.old.items }
    requires ready { AllReady (P.cards port.old) players.old.items }
    requires names { AreNamesOn (P.cards port.old) readers.now }
    ensures stands { IfOk result (λ more. (scripts : Scripts) (order : List ℕ) (run : Run) →
        StandFor readers.now scripts order players.old.items run →
        PortAt (P.stands port.old) (P.cards port.old) (P.seen port.old) (P.turns port.old) run →
        StepOne more readers.now scripts k order players.new.items
        (PortAt (P.stands port.new) (P.cards port.new) (P.seen port.new) (P.turns port.new)) run) }
    ensures falls { result ≡ Ok true → all_left players.new.items < all_left players.old.items }
    ensures same { result ≡ Ok false → all_left players.new.items ≡ all_left players.old.items }
    ensures ready { AllReady (P.cards port.new) players.new.items }
    ensures many { length players.new.items ≡ length players.old.items }
    ensures cards { P.cards port.new ≡ P.cards port.old }
    ensures bases { P.bases port.new ≡ P.bases port.old }
    ensures turns { (card : ℕ) → P.turns port.new card ≡ P.turns port.old card }
    ensures seen { (card : ℕ) → P.seen port.old card ≤ P.seen port.new card }
{
    players[k].step(port, readers)
}

// The steps that the schedule names.
fn by_schedule<P: Port>(
    players: &mut Vec<Player<'_>>,
    schedule: &[u32],
    port: &mut P,
    readers: &Readers,
) -> Result<(), NoMemory>
    requires inside { All (λ k. k < length players.old.items) schedule.now }
    requires ready { AllReady (P.cards port.old) players.old.items }
    requires names { AreNamesOn (P.cards port.old) readers.now }
    ensures stands { OnOk result ((scripts : Scripts) (order : List ℕ) (run : Run) →
        StandFor readers.now scripts order players.old.items run →
        PortAt (P.stands port.old) (P.cards port.old) (P.seen port.old) (P.turns port.old) run →
        GoesOn readers.now scripts (reverse schedule.now ++ order) players.new.items
        (PortAt (P.stands port.new) (P.cards port.new) (P.seen port.new) (P.turns port.new))) }
    ensures ready { AllReady (P.cards port.new) players.new.items }
    ensures many { length players.new.items ≡ length players.old.items }
    ensures cards { P.cards port.new ≡ P.cards port.old }
    ensures bases { P.bases port.new ≡ P.bases port.old }
    ensures turns { (card : ℕ) → P.turns port.new card ≡ P.turns port.old card }
    ensures seen { (card : ℕ) → P.seen port.old card ≤ P.seen port.new card }
{
    for k in schedule {
        step_one(players, *k as usize, port, readers)?;
    }
    Ok(())
}

// One step of each script, in their order; false where all had ended.
fn round<P: Port>(
    players: &mut Vec<Player<'_>>,
    port: &mut P,
    readers: &Readers,
) -> Result<bool, NoMemory>
    requires ready { AllReady (P.cards port.old) players.old.items }
    requires names { AreNamesOn (P.cards port.old) readers.now }
    ensures stands { IfOk result (λ more. (scripts : Scripts) (order : List ℕ) (run : Run) →
        StandFor readers.now scripts order players.old.items run →
        PortAt (P.stands port.old) (P.cards port.old) (P.seen port.old) (P.turns port.old) run →
        Rounded more readers.now scripts (round_of (length scripts) ++ order) players.new.items
        (PortAt (P.stands port.new) (P.cards port.new) (P.seen port.new) (P.turns port.new))) }
    ensures falls { result ≡ Ok true → all_left players.new.items < all_left players.old.items }
    ensures ready { AllReady (P.cards port.new) players.new.items }
    ensures many { length players.new.items ≡ length players.old.items }
    ensures cards { P.cards port.new ≡ P.cards port.old }
    ensures bases { P.bases port.new ≡ P.bases port.old }
    ensures turns { (card : ℕ) → P.turns port.new card ≡ P.turns port.old card }
    ensures seen { (card : ℕ) → P.seen port.old card ≤ P.seen port.new card }
{
    let mut any = false;
    for k in 0..players.len() {
        if step_one(players, k, port, readers)? {
            any = true;
        }
    }
    Ok(any)
}

// Rounds of all scripts until all have ended.
fn rounds_to_end<P: Port>(
    players: &mut Vec<Player<'_>>,
    port: &mut P,
    readers: &Readers,
) -> Result<(), NoMemory>
    requires ready { AllReady (P.cards port.old) players.old.items }
    requires names { AreNamesOn (P.cards port.old) readers.now }
    ensures stands { OnOk result ((scripts : Scripts) (order : List ℕ) (run : Run) →
        StandFor readers.now scripts order players.old.items run →
        PortAt (P.stands port.old) (P.cards port.old) (P.seen port.old) (P.turns port.old) run →
        EndsIn readers.now scripts order players.new.items
        (PortAt (P.stands port.new) (P.cards port.new) (P.seen port.new) (P.turns port.new))) }
    ensures many { length players.new.items ≡ length players.old.items }
    ensures cards { P.cards port.new ≡ P.cards port.old }
    ensures bases { P.bases port.new ≡ P.bases port.old }
    ensures turns { (card : ℕ) → P.turns port.new card ≡ P.turns port.old card }
    ensures seen { (card : ℕ) → P.seen port.old card ≤ P.seen port.new card }
{
    'rounds: while round(players, port, readers)? {}
    Ok(())
}

/// Runs the scripts: one step each of those that the schedule names, then one step of each in their order from the first
/// on, again and again. A script that has ended makes no step. At want of memory the run breaks off.
pub fn play_all<P: Port>(
    players: &mut Vec<Player<'_>>,
    schedule: &[u32],
    port: &mut P,
    readers: &Readers,
) -> Result<(), NoMemory>
    requires begun { AreBegun players.old.items }
    requires inside { All (λ k. k < length players.old.items) schedule.now }
    requires names { AreNamesOn (P.cards port.old) readers.now }
    ensures run { OnOk result (P.stands port.old [] → (run : Run) ×
        Ran readers.now (scripts_of players.old.items) schedule.now players.new.items
        (PortAt (P.stands port.new) (P.cards port.new) (P.seen port.new) (P.turns port.new))
        (HasRoom (P.stands port.new) (P.cards port.new) (P.seen port.new) (P.turns port.new)
        (scripts_of players.old.items)) run) }
    ensures many { length players.new.items ≡ length players.old.items }
    ensures cards { P.cards port.new ≡ P.cards port.old }
    ensures bases { P.bases port.new ≡ P.bases port.old }
    ensures turns { (card : ℕ) → P.turns port.new card ≡ P.turns port.old card }
    ensures seen { (card : ℕ) → P.seen port.old card ≤ P.seen port.new card }
{
    by_schedule(players, schedule, port, readers)?;
    rounds_to_end(players, port, readers)?;
    Ok(())
}
