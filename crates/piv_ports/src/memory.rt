// A source and a sink in memory, which fail where they are told to.
ghost use Rattle.std.specs.Prelude.{◌≡◌, ◌≤◌, ◌<◌, ◌⊎◌, ◌↔◌, [], length, take, drop, min, Some, is_some, Contains, IsErr, IsOk, OnOk, OnErr, IfOk, IfSome};
ghost use Rattle.std.proofs.Math.Nat.{min-le_right};
ghost use Rattle.piv_ports.specs.Ports.{AreFirst, IsFlushed, Rises, after_first_bytes, capped, counted, last_count, with_bytes};
ghost use Rattle.piv_ports.specs.Memory.{MemSourceState, MemSinkState, after_read, after_failed_read, after_write, after_failed_write};

use crate::{Failed, NoMemory, Sink, Source};
use std::alloc::Global;
use std::marker::Model;

/// Bytes to be read, and the numbers, from 1, of the reads that fail.
#[derive(Drop)]
pub struct MemSource {
    bytes: Vec<u8>,
    at: usize,
    fails: Vec<u64>,
    reads: u64,
    given: u64,
    faults: u64,
}

impl Model for MemSource {
    ghost Value = { MemSourceState };

    ghost view = { λ s. record {
      left = drop s.at s.bytes.items;
      given = s.given;
      faults = s.faults;
      reads = s.reads;
      fails = s.fails.items;
    } };

    ghost invariant = { λ s. s.at ≤ length s.bytes.items };
}

impl MemSource {
    /// A source of these bytes. `fails` are the numbers, from 1, of the reads that fail.
    pub fn new(bytes: Vec<u8>, fails: Vec<u64>) -> MemSource
        ensures { result ≡ record {
          left = bytes.items;
          given = 0;
          faults = 0;
          reads = 0;
          fails = fails.items;
        } }
    {
        MemSource {
            bytes,
            at: 0,
            fails,
            reads: 0,
            given: 0,
            faults: 0,
        }
    }
}

impl Source for MemSource {
    ghost left = { λ s. Some s.left };

    ghost given = { λ s. capped s.given };

    ghost faults = { λ s. capped s.faults };

    ghost given_bounded = { λ s. min-le_right s.given last_count };

    ghost faults_bounded = { λ s. min-le_right s.faults last_count };

    fn read(&mut self, out: &mut [u8]) -> Result<usize, Failed>
        ensures fits { IfOk result (λ n. n ≤ length out.old) }
        ensures first { IfOk result (λ n. AreFirst n out.new (Some self.old.left)) }
        ensures rest { IfOk result (λ n. Some self.new.left ≡ after_first_bytes n (Some self.old.left)) }
        ensures end { IfOk result
            (λ n. IfSome (Some self.old.left) (λ bytes. 0 < length out.old → (n ≡ 0) ↔ (bytes ≡ []))) }
        ensures count { IfOk result (λ n. capped self.new.given ≡ counted (capped self.old.given) n) }
        ensures no_fault { OnOk result (capped self.new.faults ≡ capped self.old.faults) }
        ensures failed { OnErr result (Rises (capped self.old.faults) (capped self.new.faults)) }
        ensures nothing_given { OnErr result (capped self.new.given ≡ capped self.old.given) }
        ensures nothing_left_out { OnErr result (Some self.new.left ≡ Some self.old.left) }

        // It fails exactly at the reads that it was told.
        ensures cause { IsErr result ↔ Contains self.old.fails (counted self.old.reads 1) }
        ensures fills { IfOk result (λ n. n ≡ min (length out.old) (length self.old.left)) }
        ensures read { IfOk result (λ n. self.new ≡ after_read n self.old) }
        ensures not_read { OnErr result (self.new ≡ after_failed_read self.old) }
    {
        self.reads = self.reads.saturating_add(1);
        if self.fails.contains(&self.reads) {
            self.faults = self.faults.saturating_add(1);
            return Err(Failed);
        }
        let n = out.len().min(self.bytes.len() - self.at);
        out[..n].copy_from_slice(&self.bytes[self.at..self.at + n]);
        self.at += n;
        self.given = self.given.saturating_add(n as u64);
        Ok(n)
    }
}

/// Room for bytes, and the numbers, from 1, of the writes that fail.
#[derive(Drop)]
pub struct MemSink {
    bytes: Vec<u8>,
    flushed: usize,
    room: usize,
    step: usize,
    fails: Vec<u64>,
    writes: u64,
    faults: u64,
}

impl Model for MemSink {
    ghost use Rattle.std.specs.Prelude.{take};
    ghost use Rattle.std.specs.Vec.{vec_len, vec_capacity};
    ghost use Rattle.piv_ports.specs.Memory.{IsRoom, MemSinkState};

    ghost Value = { MemSinkState };

    ghost view = { λ s. record {
      taken = s.bytes.items;
      flushed = take s.flushed s.bytes.items;
      faults = s.faults;
      room = s.room;
      step = s.step;
      writes = s.writes;
      fails = s.fails.items;
    } };

    ghost invariant = { λ s. IsRoom s.step s.flushed (vec_len s.bytes) s.room (vec_capacity s.bytes) };
}

impl MemSink {
    /// A sink with room for so many bytes, which takes `step` bytes at most at a time. `fails` are
    /// the numbers, from 1, of the writes that fail.
    pub fn new(
        alloc: Global,
        room: usize,
        step: usize,
        fails: Vec<u64>,
    ) -> Result<MemSink, NoMemory>
        requires { 0 < step }
        ensures { IfOk result (λ sink. sink ≡ record {
          taken = [];
          flushed = [];
          faults = 0;
          room = room;
          step = step;
          writes = 0;
          fails = fails.items;
        }) }
    {
        let Ok(bytes) = Vec::with_capacity(alloc, room) else {
            return Err(NoMemory);
        };
        Ok(MemSink {
            bytes,
            flushed: 0,
            room,
            step,
            fails,
            writes: 0,
            faults: 0,
        })
    }

    /// What it has taken.
    pub fn taken(&self) -> &[u8]
        ensures { result.now ≡ self.now.taken }
    {
        &self.bytes
    }
}

impl Sink for MemSink {
    ghost taken = { λ s. Some s.taken };

    ghost flushed = { λ s. Some s.flushed };

    ghost faults = { λ s. capped s.faults };

    ghost faults_bounded = { λ s. min-le_right s.faults last_count };

    fn write(&mut self, piece: &[u8]) -> Result<usize, Failed>
        ensures fits { IfOk result (λ n. n ≤ length piece.now) }
        ensures some { IfOk result (λ n. 0 < length piece.now → 0 < n) }
        ensures takes { IfOk result (λ n. Some self.new.taken ≡ with_bytes (Some self.old.taken) (take n piece.now)) }
        ensures no_fault { OnOk result (capped self.new.faults ≡ capped self.old.faults) }
        ensures failed { OnErr result (Rises (capped self.old.faults) (capped self.new.faults)) }
        ensures nothing_taken { OnErr result (Some self.new.taken ≡ Some self.old.taken) }
        ensures told { is_some (Some self.new.flushed) ≡ is_some (Some self.old.flushed) }

        // It fails exactly at the writes that it was told, and where its room is used.
        ensures cause { IsErr result
            ↔ (Contains self.old.fails (counted self.old.writes 1) ⊎ ((self.old.room ≡ 0) × (0 < length piece.now))) }
        ensures fills { IfOk result (λ n. n ≡ min (min (length piece.now) self.old.step) self.old.room) }
        ensures written { IfOk result (λ n. self.new ≡ after_write (take n piece.now) n self.old) }
        ensures not_written { OnErr result (self.new ≡ after_failed_write self.old) }
    {
        self.writes = self.writes.saturating_add(1);
        let told_to = self.fails.contains(&self.writes);
        let full = self.room == 0 && !piece.is_empty();
        if told_to || full {
            self.faults = self.faults.saturating_add(1);
            return Err(Failed);
        }
        let n = piece.len().min(self.step).min(self.room);
        self.bytes.extend_from_slice(&piece[..n]).unwrap();
        self.room -= n;
        Ok(n)
    }

    fn flush(&mut self) -> Result<(), Failed>
        ensures all { OnOk result (IsFlushed (Some self.old.taken) (Some self.new.flushed)) }
        ensures no_fault { OnOk result (capped self.new.faults ≡ capped self.old.faults) }
        ensures failed { OnErr result (Rises (capped self.old.faults) (capped self.new.faults)) }
        ensures same { Some self.new.taken ≡ Some self.old.taken }
        ensures told { is_some (Some self.new.flushed) ≡ is_some (Some self.old.flushed) }
        ensures ok { IsOk result }
        ensures flushed { self.new ≡ record self.old { flushed = self.old.taken } }
    {
        self.flushed = self.bytes.len();
        Ok(())
    }
}
