// A source of bytes, and a reader of all of them.
ghost use Rattle.std.specs.Prelude.{◌≡◌, ◌≤◌, ◌<◌, ◌+◌, ◌↔◌, ℕ, List, [], length, Option, Some, IfOk, OnOk, OnErr, IfSome, IsErrOf};
ghost use Rattle.piv_ports.specs.Ports.{AreFirst, CountsFailure, Rises, TakesAtMost, after_first_bytes, counted, last_count, reach};
ghost use Rattle.piv_ports.specs.declared.source.ReadStop.TheVariants.{NoMemory};

use std::alloc::{AllocError, Global};

/// A growth was refused for want of memory.
#[derive(Clone, Copy, Debug, PartialEq, Eq)]
pub struct NoMemory;

/// A read, a write or a flush failed.
#[derive(Clone, Copy, Debug, PartialEq, Eq)]
pub struct Failed;

/// Why not all was read.
#[derive(Clone, Copy, Debug, PartialEq, Eq)]
pub enum ReadStop {
    /// A read failed.
    Failed,
    /// There are more bytes than were allowed.
    TooLarge,
    /// Memory for the bytes was wanting.
    NoMemory,
}

impl From<AllocError> for ReadStop {
    ghost from_gives = { λ _ e. e ≡ NoMemory };

    fn from(_: AllocError) -> Self {
        ReadStop::NoMemory
    }
}

/// Gives bytes, piece by piece; a failed read gives none and leaves none out.
pub trait Source {
    /// The bytes that are left, where the source tells them.
    ghost left: { Self → Option (List ℕ) };

    /// How many bytes it has given so far, a count that stays at the last one.
    ghost given: { Self → ℕ };

    /// How often a read has failed, a count that stays at the last one.
    ghost faults: { Self → ℕ };

    /// Puts the next bytes at the front of `out`, and gives their number. None into an `out` with room is
    /// the end.
    fn read(&mut self, out: &mut [u8]) -> Result<usize, Failed>
        ensures fits { IfOk result (λ n. n ≤ length out.old) }
        ensures first { IfOk result (λ n. AreFirst n out.new (left self.old)) }
        ensures rest { IfOk result (λ n. left self.new ≡ after_first_bytes n (left self.old)) }
        ensures end { IfOk result
            (λ n. IfSome (left self.old) (λ bytes. 0 < length out.old → (n ≡ 0) ↔ (bytes ≡ []))) }
        ensures count { IfOk result (λ n. given self.new ≡ counted (given self.old) n) }
        ensures no_fault { OnOk result (faults self.new ≡ faults self.old) }
        ensures failed { OnErr result (Rises (faults self.old) (faults self.new)) }
        ensures nothing_given { OnErr result (given self.new ≡ given self.old) }
        ensures nothing_left_out { OnErr result (left self.new ≡ left self.old) };

    /// Both counts are of 64 bits.
    ghost given_bounded: { (s : Self) → given s ≤ last_count };

    ghost faults_bounded: { (s : Self) → faults s ≤ last_count };
}

const CHUNK: usize = 4096;

/// Reads all there is, if it is no more than `most` bytes.
pub fn read_all<S: Source>(alloc: Global, source: &mut S, most: usize) -> Result<Vec<u8>, ReadStop>
    ensures bytes { IfOk result (λ v. IfSome (S.left source.old) (λ bytes. v.items ≡ bytes)) }
    ensures at_end { OnOk result (IfSome (S.left source.old) (λ _. S.left source.new ≡ Some [])) }
    ensures small { IfOk result (λ v. length v.items ≤ most) }
    ensures count { IfOk result (λ v. S.given source.new ≡ counted (S.given source.old) (length v.items)) }
    ensures faults { CountsFailure result (S.faults source.old) (S.faults source.new) }
    ensures too_large { IsErrOf result ReadStop.TooLarge → IfSome (S.left source.old) (λ bytes. most < length bytes) }
    ensures too_large_count { IsErrOf result ReadStop.TooLarge
        → S.given source.new ≡ counted (S.given source.old) (most + 1) }
    ensures taken { TakesAtMost (reach result most)
        (S.left source.old) (S.left source.new) (S.given source.old) (S.given source.new) }
{
    let mut bytes = Vec::new(alloc);
    let mut chunk = [0u8; CHUNK];
    'reads: loop {
        let room = most - bytes.len();
        let want = if room < CHUNK { room + 1 } else { CHUNK };
        match source.read(&mut chunk[..want]) {
            Ok(n) => {
                if n == 0 {
                    return Ok(bytes);
                }
                if n > room {
                    return Err(ReadStop::TooLarge);
                }
                bytes.extend_from_slice(&chunk[..n])?;
            }
            Err(Failed) => return Err(ReadStop::Failed),
        }
    }
}
