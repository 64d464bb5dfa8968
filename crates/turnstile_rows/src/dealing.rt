// A caller's passes.
ghost use Rattle.std.specs.Prelude.{◌≡◌, ◌<◌, ◌≤◌, ℕ, map, replicate, IfOk, OnOk, OnErr};
ghost use Rattle.turnstile.specs.Known.{most_out, split_off};
ghost use Rattle.turnstile_rows.specs.Rows.{ArePassesOf, AreFirst, HaveOut, one_more_out, with_out};

use crate::gathering::gather_all;
use std::alloc::Global;
use turnstile::{Held, NoMemory, Pass, Turnstile};

/// A further pass of each turnstile, which has seen as much as the first one and has no record of its own.
pub fn deal<T: Held>(
    alloc: Global,
    turnstiles: &[Turnstile<T>],
    firsts: &mut Vec<Pass<T>>,
) -> Result<Vec<Pass<T>>, NoMemory>
    requires own { ArePassesOf turnstiles.now firsts.old.items }
    requires first { AreFirst firsts.old.items }
    requires room { (n : ℕ) × (n < most_out) × HaveOut n firsts.old.items }
    ensures passes { IfOk result (λ passes. passes.items ≡ map split_off firsts.old.items) }
    ensures out { OnOk result (firsts.new.items ≡ map one_more_out firsts.old.items) }
    ensures err { OnErr result (firsts.new.items ≡ firsts.old.items) }
{
    let Ok(mut passes) = Vec::with_capacity(alloc, turnstiles.len()) else {
        return Err(NoMemory);
    };
    for card in 0..turnstiles.len() {
        let turnstile = turnstiles.get(card).unwrap();
        let Ok(pass) = turnstile.split(&mut firsts[card]) else {
            unreachable!()
        };
        passes.push_reserved(pass);
    }
    Ok(passes)
}

/// A row of further passes for each of so many callers. Where memory is wanting none is left out.
pub fn deal_all<T: Held>(
    alloc: Global,
    turnstiles: &[Turnstile<T>],
    firsts: &mut Vec<Pass<T>>,
    callers: usize,
) -> Result<Vec<Vec<Pass<T>>>, NoMemory>
    requires own { ArePassesOf turnstiles.now firsts.old.items }
    requires first { AreFirst firsts.old.items }
    requires out { HaveOut 0 firsts.old.items }
    requires few { callers ≤ most_out }
    ensures rows { IfOk result (λ rows. map (λ v. v.items) rows.items ≡ replicate callers (map split_off firsts.old.items)) }
    ensures out { OnOk result (firsts.new.items ≡ map (with_out callers) firsts.old.items) }
    ensures err { OnErr result (HaveOut 0 firsts.new.items) }
    ensures own { ArePassesOf turnstiles.now firsts.new.items }
    ensures first { AreFirst firsts.new.items }
{
    let Ok(mut rows) = Vec::with_capacity(alloc, callers) else {
        return Err(NoMemory);
    };
    for _caller in 0..callers {
        match deal(alloc, turnstiles, firsts) {
            Ok(row) => rows.push_reserved(row),
            Err(NoMemory) => {
                gather_all(turnstiles, firsts, rows);
                return Err(NoMemory);
            }
        }
    }
    Ok(rows)
}
