// The turnstile and its passes.
ghost use Rattle.std.specs.Prelude.{◌≡◌, ◌+◌, ◌<◌, true, false, [], ◌∷◌, List, IfOk, IfErr, OnOk, OnErr, IsOk, Option, Some, None};

use crate::held::{Held, Job};
use crate::rule::{AWAITED, Board, FREE, Place, TAKEN};
use crate::steps::{Both, Cut, GiveBack, Look, Made, Take};
use atomic_table::{Refused, Table};
use std::alloc::Global;
use std::hint;
use std::marker::{Brand, Model};
use std::snapshot::Snapshot;
use std::sync::Wait;

// How often a thread looks before it sleeps.
const LOOKS: u32 = 100;

/// A growth was refused for want of memory.
#[derive(Clone, Copy, PartialEq, Eq, Debug)]
pub struct NoMemory;

/// Why a turnstile wasn't made. The value comes back.
#[derive(Drop)]
pub enum TurnstileFault<T> {
    NoMemory(T),
}

/// A value at which threads take turns. One job at a time runs on it.
#[derive(Drop)]
pub struct Turnstile<T: Held> {
    table: Board<T>,
}

impl<T: Held> Model for Turnstile<T> {
    ghost use Rattle.std.specs.Prelude.{◌≡◌};
    ghost use Rattle.turnstile.specs.Known.{Gate};

    ghost Value = { Gate T.Base };

    ghost view = { λ t. record { table = t.table.shared.table_id; base = t.table.shared.key } };

    ghost invariant = { λ t.
        (t.table.shared.table_id.words ≡ 1) × (t.table.shared.table_id.slots ≡ 1) };
}

/// The leave to take turns at one turnstile. It has no bytes.
///
/// Contracts see which records its holder made, each with its place among all of the turnstile, how many it
/// knows that there are, and, of the first pass, how many passes are out.
#[derive(Drop)]
pub struct Pass<T: Held> {
    place: Place<T>,
}

impl<T: Held> Model for Pass<T> {
    ghost use Rattle.turnstile.specs.Known.{Known};

    ghost Value = { Known T.Base T.Record };

    ghost use Rattle.turnstile.specs.Inside.{known, IsIdle};

    ghost view = { λ p. known p.place };

    ghost invariant = { λ p. IsIdle p.place };
}

impl<T: Held> Turnstile<T> {
    ghost use Rattle.turnstile.specs.declared.pass.TurnstileFault.TheVariants.{NoMemory as handed_back};
    ghost use Rattle.turnstile.specs.Records.{followed, Apart, Rises};
    ghost use Rattle.turnstile.specs.Known.{IsPassOf, most_out, first_pass, split_off, joined};
    ghost use Rattle.turnstile.specs.Turns.{Turned, Closed};
    ghost use Rattle.turnstile.specs.Steps.{Takes, given};

    /// A turnstile for this value, and its first pass. Contracts alone read the base.
    pub fn new(
        alloc: Global,
        state: T,
        base: &T::Base,
    ) -> Result<(Turnstile<T>, Pass<T>), TurnstileFault<T>>
        requires stands { T.stands_for state base.now [] }
        ensures ok { IfOk result (λ t. (t.0.base ≡ base.now) × (t.1 ≡ first_pass t.0)) }
        ensures err { IfErr result (λ fault. fault ≡ handed_back state) }
    {
        let Ok(mut slots) = Vec::with_capacity(alloc, 1) else {
            return Err(TurnstileFault::NoMemory(state));
        };
        slots.push_reserved(Some(state));
        match Table::new(alloc, &[FREE], slots, base) {
            Ok((table, place)) => Ok((Turnstile { table }, Pass { place })),
            Err(Refused { mut slots }) => {
                let state = slots.pop().unwrap().unwrap();
                slots.destroy_empty();
                Err(TurnstileFault::NoMemory(state))
            }
        }
    }

    /// A second pass, which has seen as many records as the first and has none of its own.
    pub fn split(&self, pass: &mut Pass<T>) -> Result<Pass<T>, NoMemory>
        requires own { IsPassOf self.now pass.old }
        requires first { pass.old.is_first ≡ true }
        requires room { pass.old.out < most_out }
        ensures made { IsOk result }
        ensures ok { IfOk result (λ other. other ≡ split_off pass.old) }
        ensures out { OnOk result (pass.new ≡ record pass.old { out = pass.old.out + 1 }) }
        ensures err { OnErr result (pass.new ≡ pass.old) }
    {
        Ok(Pass {
            place: self.table.shared.split_seat::<Cut>(&mut pass.place),
        })
    }

    /// Takes another pass into the first: the records of both are then its own, by their places.
    pub fn join(&self, pass: &mut Pass<T>, other: Pass<T>)
        requires own { IsPassOf self.now pass.old × IsPassOf self.now other }
        requires first { (pass.old.is_first ≡ true) × (other.is_first ≡ false) }
        ensures joined { pass.new ≡ joined pass.old other }
        ensures apart { Apart pass.old.own other.own }
        ensures rises { Rises pass.new.seen pass.new.own }
    {
        let Pass { place } = other;
        self.table.shared.join_seat::<Both>(&mut pass.place, place);
        self.table.shared.load::<Look>(&mut pass.place, 0);
    }

    // Looks for a while, until the word isn't 1 any more: most turns are short.
    fn watch(&self) {
        for _look in 0..LOOKS {
            if self.table.shared.peek(0) != TAKEN {
                return;
            }
            hint::spin_loop();
        }
    }

    // Sleeps until the value is at home, and takes it.
    fn wait<R: Wait>(&self, rt: &R, place: &mut Place<T>)
        requires seat { (place.old.table_id ≡ self.now.table) × (place.old.me.1 ≡ []) }
        requires idle { (place.old.me.0.taken ≡ None) × (place.old.me.0.base ≡ Some self.now.base) }
        ensures seat { (place.new.table_id ≡ place.old.table_id) × (place.new.id ≡ place.old.id) }
        ensures took { Takes T.stands_for place.old.me 0 place.new.me }
    {
        self.watch();
        let shared = &self.table.shared;
        if shared.compare_exchange::<Take>(place, 0, FREE, TAKEN) == FREE {
            return;
        }
        for _ in rt.forever() {
            if shared.swap::<Take>(place, 0, AWAITED) == FREE {
                return;
            }
            shared.park(rt, 0, AWAITED as u32);
            self.watch();
        }
        unreachable!()
    }

    // Puts the value that the job left into the slot, gives the slot back, and wakes one that may sleep.
    fn give_back<J: Job<T>, W: Made<T::Record>>(
        &self,
        place: &mut Place<T>,
        job: Snapshot<J>,
        answer: &J::Out,
        found: Snapshot<T>,
        left: T,
    )
        requires seat { (place.old.table_id ≡ self.now.table) × (place.old.me.1 ≡ (0, None) ∷ []) }
        requires base { place.old.me.0.base ≡ Some self.now.base }
        requires taken { place.old.me.0.taken ≡ Some found.value }
        requires made { W.made ≡ J.made job.value answer.now left }
        requires stands { (base : T.Base) (records : List T.Record) → T.stands_for found.value base records
            → T.stands_for left base (followed records (J.made job.value answer.now left)) }
        ensures seat { (place.new.table_id ≡ place.old.table_id) × (place.new.id ≡ place.old.id) }
        ensures given { place.new.me
            ≡ (given place.old.me.0 (T.record_count found.value) (J.made job.value answer.now left), []) }
    {
        let shared = &self.table.shared;
        match shared.exchange(place, 0, Some(left)) {
            None => {}
            Some(_) => unreachable!(),
        }
        if shared.swap::<GiveBack<W>>(place, 0, FREE) == AWAITED {
            shared.wake_one(0);
        }
    }

    /// Waits until no other turn is made, and runs the job on the value.
    pub fn turn<R: Wait, J: Job<T>>(&self, rt: &R, pass: &mut Pass<T>, job: J) -> J::Out
        requires own { IsPassOf self.now pass.old }
        ensures turned { Turned T.stands_for J.ran J.made self.now.base job result pass.old pass.new }
    {
        let noted = Snapshot::of(&job);
        self.wait(rt, &mut pass.place);
        let shared = &self.table.shared;
        let mut state = shared.exchange(&mut pass.place, 0, None).unwrap();
        let found = Snapshot::of(&state);
        let answer = job.run(&mut state);
        self.give_back::<J, Brand>(&mut pass.place, noted, &answer, found, state);
        answer
    }

    /// Ends the turnstile, and gives the value back. All records are then those of the first pass.
    pub fn close(self, pass: Pass<T>) -> T
        requires own { IsPassOf self pass }
        requires first { pass.is_first ≡ true }
        requires out { pass.out ≡ 0 }
        ensures closed { Closed T.stands_for self.base result pass }
    {
        let Self { table } = self;
        let Pass { place } = pass;
        let mut closed = table.close_with(place);
        let state = closed.take(0).unwrap();
        closed.free();
        state
    }
}
