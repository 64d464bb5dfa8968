ghost use Rattle.std.specs.Prelude.{◌≡◌, ◌+◌, ◌^◌, ◌<◌, ◌≤◌, [], true, false};
ghost use Rattle.std.specs.Thread.{IsSync};
ghost use Rattle.turnstile.specs.Known.{IsPassOf, most_out};

use crate::numbers::{Add, Count, Numbers};
use crate::pass::{Pass, Turnstile};
use std::alloc::Global;
use std::sync::Wait;
use std::test::*;
use std::thread;
use std::thread::Threads;

// A thread's numbers begin at its own multiple of this.
const APART: u64 = 1_000_000;

fn none(alloc: Global) -> Numbers
    ensures { (result.label ≡ 7) × (result.all.items ≡ []) }
{
    Numbers {
        label: 7,
        all: Vec::new(alloc),
    }
}

// The turns of one thread.
fn add_all<R: Wait>(
    rt: &R,
    turnstile: &Turnstile<Numbers>,
    pass: &mut Pass<Numbers>,
    from: u64,
    turns: u64,
)
    requires own { IsPassOf turnstile.now pass.old }
    requires small { from + turns < 2 ^ 64 }
    ensures own { IsPassOf turnstile.now pass.new }
    ensures first { (pass.new.is_first ≡ pass.old.is_first) × (pass.new.out ≡ pass.old.out) }
{
    for i in 0..turns {
        turnstile.turn(rt, pass, Add { number: from + i });
    }
}

// Whether these are the numbers of so many threads, each thread's in its order.
fn are_in_order(alloc: Global, numbers: &[u64], threads: u64, turns: u64) -> Option<bool> {
    let mut next = vec![in alloc; 0_u64; threads as usize].ok()?;
    for number in numbers {
        let due = next.get_mut((number / APART) as usize)?;
        if number % APART != *due {
            return Some(false);
        }
        *due = due.wrapping_add(1);
    }
    Some(next.iter().all(|due| *due == turns))
}

// So many threads, each of which starts the next beside its own turns.
fn by_many<R: Threads + Wait + Sync>(
    rt: &R,
    turnstile: &Turnstile<Numbers>,
    mut first: Pass<Numbers>,
    threads: u64,
    turns: u64,
) -> Pass<Numbers>
    requires own { IsPassOf turnstile.now first × (first.is_first ≡ true) }
    requires small { (first.out + threads < most_out) × (threads ≤ 64) × (turns ≤ 1000) }
    ensures own { IsPassOf turnstile.now result × (result.is_first ≡ true) }
    ensures out { result.out ≡ first.out }
{
    if threads == 0 {
        return first;
    }
    let Ok(mut other) = turnstile.split(&mut first) else {
        unreachable!()
    };
    let left = threads - 1;
    let (mut first, other) = thread::join(
        rt,
        move || -> Pass<Numbers>
            requires { IsSync R.row × IsPassOf turnstile.now first × (first.is_first ≡ true)
                × (first.out + left < most_out) × (left ≤ 64) × (turns ≤ 1000) }
            ensures { IsPassOf turnstile.entry.now result × (result.is_first ≡ true) × (result.out ≡ first.out) }
        { by_many(rt, turnstile, first, left, turns) },
        move || -> Pass<Numbers>
            requires { IsPassOf turnstile.now other × (left ≤ 64) × (turns ≤ 1000) }
            ensures { IsPassOf turnstile.entry.now result × (result.is_first ≡ other.is_first) }
        {
            add_all(rt, turnstile, &mut other, left * APART, turns);
            other
        },
    );
    turnstile.join(&mut first, other);
    first
}

fn all_of<R: Threads + Wait + Sync>(
    rt: &R,
    alloc: Global,
    threads: u64,
    turns: u64,
) -> Option<Numbers>
    requires { (threads ≤ 64) × (turns ≤ 1000) }
{
    let (turnstile, first) = Turnstile::new(alloc, none(alloc), &7).ok()?;
    let first = by_many(rt, &turnstile, first, threads, turns);
    Some(turnstile.close(first))
}

#[test]
fn the_numbers_of_each_thread_stand_in_its_order(rt: HostRuntime) -> Result<(), Fail> {
    for (threads, turns) in [(2, 1000), (8, 500)] {
        let Some(numbers) = all_of(&rt, rt.alloc(), threads, turns) else {
            return Err("there was no memory".into());
        };
        assert_eq!(&rt; numbers.label, 7);
        assert_eq!(&rt; numbers.all.len() as u64, threads * turns);
        assert_eq!(&rt;
            are_in_order(rt.alloc(), &numbers.all, threads, turns),
            Some(true)
        );
    }
    Ok(())
}

// Counts by a turn of its own.
fn count<R: Wait>(rt: &R, turnstile: &Turnstile<Numbers>, pass: &mut Pass<Numbers>) -> usize
    requires own { IsPassOf turnstile.now pass.old }
    ensures seen { result ≡ pass.new.seen }
    ensures same { pass.new ≡ record pass.old { seen = pass.new.seen } }
{
    turnstile.turn(rt, pass, Count)
}

fn count_between<R: Wait>(rt: &R, alloc: Global) -> Option<(usize, usize, Numbers)> {
    let (turnstile, mut pass) = Turnstile::new(alloc, none(alloc), &7).ok()?;
    let before = count(rt, &turnstile, &mut pass);
    add_all(rt, &turnstile, &mut pass, 40, 3);
    let after = count(rt, &turnstile, &mut pass);
    Some((before, after, turnstile.close(pass)))
}

#[test]
fn a_job_that_adds_nothing_leaves_the_numbers(rt: HostRuntime) -> Result<(), Fail> {
    let Some((before, after, numbers)) = count_between(&rt, rt.alloc()) else {
        return Err("there was no memory".into());
    };
    assert_eq!(&rt; (before, after), (0, 3));
    assert_eq!(&rt; numbers.all.as_slice(), [40, 41, 42].as_slice());
    Ok(())
}
