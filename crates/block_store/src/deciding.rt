// Whether a directory spells objects.
ghost use Rattle.std.specs.Prelude.{◌≡◌, ◌↔◌, ◌+◌, ◌<◌, ◌≤◌, ℕ, length, IsTrue};
ghost use Rattle.block_store.specs.Blocks.{chain, times, are_chains};
ghost use Rattle.block_store.specs.Writes.{count_of, ChainFits};

use crate::directory::{blocks, first_in, length_in, next_in};
use crate::layout::DIRECTORY;
use piv_model::limits::{LONGEST_OBJECT, MOST_BLOCKS, OBJECTS};

// Marks the blocks of a chain, unless one of them isn't below the budget or is marked already.
fn add_chain(
    used: &mut [bool; MOST_BLOCKS],
    directory: &[u8; DIRECTORY],
    first: usize,
    count: usize,
    budget: usize,
) -> bool
    requires first { first ≤ 65535 }
    requires few { budget ≤ 2048 }
    ensures fits { IsTrue result ↔ ChainFits budget used.old (chain directory.now count first) }
    ensures counts { IsTrue result → (b : ℕ) → b < 2048
        → count_of used.new b ≡ count_of used.old b + times b (chain directory.now count first) }
{
    let mut block = first;
    for _i in 0..count {
        if block >= budget {
            return false;
        }
        if used[block] {
            return false;
        }
        used[block] = true;
        block = next_in(directory, block);
    }
    true
}

/// Whether no object is too long, all numbers that are read are below the budget, and no block is read twice.
pub(crate) fn has_chains(directory: &[u8; DIRECTORY], budget: usize) -> bool
    requires { budget ≤ 2048 }
    ensures { result ≡ are_chains budget directory.now }
{
    let mut used = [false; MOST_BLOCKS];
    for place in 0..OBJECTS {
        let n = length_in(directory, place);
        if n > LONGEST_OBJECT {
            return false;
        }
        let first = first_in(directory, place);
        let count = blocks(n);
        let fits = add_chain(&mut used, directory, first, count, budget);
        if !fits {
            return false;
        }
    }
    true
}
