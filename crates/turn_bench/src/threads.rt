// Threads that take turns.
ghost use Rattle.std.specs.Prelude.{◌≡◌, ◌+◌, ◌<◌, ◌≤◌, true};
ghost use Rattle.std.specs.Thread.{IsSync};
ghost use Rattle.turnstile.specs.Known.{IsPassOf, most_out};

use crate::counter::{CountOne, Counter};
use std::alloc::Global;
use std::sync::Wait;
use std::thread;
use std::thread::Threads;
use turnstile::{Pass, Turnstile};

// The turns of one thread.
fn take_turns<R: Wait>(rt: &R, turnstile: &Turnstile<Counter>, pass: &mut Pass<Counter>, turns: u32)
    requires own { IsPassOf turnstile.now pass.old }
    ensures own { IsPassOf turnstile.now pass.new }
    ensures same { (pass.new.is_first ≡ pass.old.is_first) × (pass.new.out ≡ pass.old.out) }
{
    for _turn in 0..turns {
        turnstile.turn(rt, pass, CountOne);
    }
}

// So many threads, each of which starts the next beside its own turns.
fn beside<R: Threads + Wait + Sync>(
    rt: &R,
    turnstile: &Turnstile<Counter>,
    mut first: Pass<Counter>,
    threads: u8,
    turns: u32,
) -> Pass<Counter>
    requires own { IsPassOf turnstile.now first × (first.is_first ≡ true) }
    requires small { first.out + threads < most_out }
    ensures own { IsPassOf turnstile.now result × (result.is_first ≡ true) }
    ensures out { result.out ≡ first.out }
{
    if threads <= 1 {
        take_turns(rt, turnstile, &mut first, turns);
        return first;
    }
    let Ok(mut other) = turnstile.split(&mut first) else {
        unreachable!()
    };
    let left = threads - 1;
    let (mut first, other) = thread::join(
        rt,
        move || -> Pass<Counter>
            requires { IsSync R.row × IsPassOf turnstile.now first × (first.is_first ≡ true)
                × (first.out + left < most_out) }
            ensures { IsPassOf turnstile.entry.now result × (result.is_first ≡ true) × (result.out ≡ first.out) }
        { beside(rt, turnstile, first, left, turns) },
        move || -> Pass<Counter>
            requires { IsPassOf turnstile.now other }
            ensures { IsPassOf turnstile.entry.now result × (result.is_first ≡ other.is_first) }
        {
            take_turns(rt, turnstile, &mut other, turns);
            other
        },
    );
    turnstile.join(&mut first, other);
    first
}

/// The count after so many turns in all, shared among so many threads. None for want of memory.
pub fn count<R: Threads + Wait + Sync>(
    rt: &R,
    alloc: Global,
    turns: u32,
    threads: u8,
) -> Option<u64> {
    let threads = threads.max(1);
    let (turnstile, first) = Turnstile::new(alloc, Counter { count: 0 }, &()).ok()?;
    let first = beside(rt, &turnstile, first, threads, turns / threads as u32);
    Some(turnstile.close(first).count)
}
