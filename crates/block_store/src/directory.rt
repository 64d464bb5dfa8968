// The directory: lengths, first blocks, next blocks.
ghost use Rattle.std.specs.Prelude.{◌≡◌, ◌+◌, ◌-◌, ◌*◌, ◌<◌, ◌≤◌, ◌/◌, ◌%◌, ◌||◌, ℕ, length, true, nat_lt, min, slice_index, EachIndex, IfSome};
ghost use Rattle.piv_model.specs.Memory.{blocks as blocks_of};
ghost use Rattle.card_image.specs.Header.{number_in};
ghost use Rattle.block_store.specs.Blocks.{directory_twin, directory_of, length_in, first_in, next_in, chain, reads};
ghost use Rattle.block_store.specs.Writes.{Differ, IsEntered, LinkedTo, is_marked, is_in, free_below, IsLowest, with_number};

use crate::layout::{DIRECTORY, MOST_PARTS, NEXTS};
use card_image::layout::HEADER;
use nvm_device::Nvm;
use nvm_slots::Twin;
use piv_model::limits::{BLOCK, MOST_BLOCKS, OBJECTS};

pub(crate) fn directory_twin() -> Twin
    ensures { result ≡ directory_twin }
{
    Twin {
        selector: HEADER,
        slot: [HEADER + 1, HEADER + 1 + DIRECTORY],
        size: DIRECTORY,
    }
}

/// The live directory.
pub(crate) fn read_directory<N: Nvm>(nvm: &N) -> [u8; DIRECTORY]
    requires on { (N.state nvm.now).power.on ≡ true }
    requires size { 1114112 ≤ (N.state nvm.now).size }
    ensures size { length result ≡ 4228 }
    ensures told { IfSome (N.state nvm.now).bytes (λ row. result ≡ directory_of row) }
{
    let mut out = [0; DIRECTORY];
    directory_twin().read(nvm, &mut out);
    out
}

// How many blocks.
pub(crate) fn blocks(n: usize) -> usize
    requires { n ≤ 65535 }
    ensures blocks { result ≡ blocks_of n }
    ensures few { result ≤ 1024 }
    ensures short { n ≤ 16384 → result ≤ 256 }
{
    n.div_ceil(BLOCK)
}

fn number(directory: &[u8; DIRECTORY], at: usize) -> usize
    requires { at ≤ 4226 }
    ensures number { result ≡ number_in directory.now at }
    ensures few { result ≤ 65535 }
{
    256 * directory[at] as usize + directory[at + 1] as usize
}

pub(crate) fn length_in(directory: &[u8; DIRECTORY], place: usize) -> usize
    requires { place < 33 }
    ensures length { result ≡ length_in directory.now place }
    ensures few { result ≤ 65535 }
{
    number(directory, 4 * place)
}

pub(crate) fn first_in(directory: &[u8; DIRECTORY], place: usize) -> usize
    requires { place < 33 }
    ensures first { result ≡ first_in directory.now place }
    ensures few { result ≤ 65535 }
{
    number(directory, 4 * place + 2)
}

// The next block, 0 for a number that is no block's.
pub(crate) fn next_in(directory: &[u8; DIRECTORY], block: usize) -> usize
    requires { block ≤ 65535 }
    ensures next { result ≡ next_in directory.now block }
    ensures few { result ≤ 65535 }
{
    if block >= MOST_BLOCKS {
        return 0;
    }
    number(directory, NEXTS + 2 * block)
}

// Marks the blocks of a chain.
fn mark_chain(
    used: &mut [bool; MOST_BLOCKS],
    directory: &[u8; DIRECTORY],
    first: usize,
    count: usize,
)
    requires first { first ≤ 65535 }
    ensures { (b : ℕ) → b < 2048
        → is_marked used.new b ≡ (is_marked used.old b || is_in b (chain directory.now count first)) }
{
    let mut block = first;
    for _i in 0..count {
        if block < MOST_BLOCKS {
            used[block] = true;
        }
        block = next_in(directory, block);
    }
}

// Marks the blocks that are read.
pub(crate) fn used_blocks(directory: &[u8; DIRECTORY]) -> [bool; MOST_BLOCKS]
    ensures size { length result ≡ 2048 }
    ensures marks { (b : ℕ) → b < 2048 → is_marked result b ≡ nat_lt 0 (reads directory.now b) }
{
    let mut used = [false; MOST_BLOCKS];
    for place in 0..OBJECTS {
        let count = blocks(length_in(directory, place));
        mark_chain(&mut used, directory, first_in(directory, place), count);
    }
    used
}

#[tactic(auto, using(crate::proofs::Marks::free_steps))]
// The lowest blocks that aren't marked, in their order.
pub(crate) fn lowest_free(used: &[bool; MOST_BLOCKS], count: usize) -> [usize; MOST_PARTS]
    requires { count ≤ 256 }
    ensures size { length result ≡ 256 }
    ensures low { EachIndex result (λ j. slice_index result j < 2048) }
    ensures lowest { (j : ℕ) → j < min count (free_below used.now 2048) → IsLowest used.now j (slice_index result j) }
{
    let mut chosen = [0; MOST_PARTS];
    let mut found = 0;
    for block in 0..MOST_BLOCKS {
        if found == count {
            return chosen;
        }
        if used[block] {
            continue;
        }
        chosen[found] = block;
        found += 1;
    }
    chosen
}

pub(crate) fn put_number(directory: &mut [u8; DIRECTORY], at: usize, n: usize)
    requires at { at ≤ 4226 }
    requires few { n ≤ 65535 }
    ensures { directory.new ≡ with_number directory.old at n }
{
    directory[at] = (n / 256) as u8;
    directory[at + 1] = (n % 256) as u8;
}

/// Enters an object with these blocks.
pub(crate) fn enter(directory: &mut [u8; DIRECTORY], place: usize, n: usize, chosen: &[usize])
    requires place { place < 33 }
    requires few { n ≤ 16384 }
    requires low { EachIndex chosen.now (λ j. slice_index chosen.now j < 2048) }
    ensures { Differ chosen.now → IsEntered place n chosen.now directory.old directory.new }
{
    link(directory, chosen);
    put_number(directory, 4 * place, n);
    put_number(directory, 4 * place + 2, first_of(chosen));
}

fn first_of(chosen: &[usize]) -> usize
    requires low { EachIndex chosen.now (λ j. slice_index chosen.now j < 2048) }
    ensures first { result ≡ slice_index chosen.now 0 }
    ensures few { result < 2048 }
{
    if chosen.is_empty() {
        return 0;
    }
    chosen[0]
}

// Makes each of these blocks name the one after it.
fn link(directory: &mut [u8; DIRECTORY], chosen: &[usize])
    requires low { EachIndex chosen.now (λ j. slice_index chosen.now j < 2048) }
    ensures { LinkedTo (length chosen.now - 1) chosen.now directory.old directory.new }
{
    for j in 1..chosen.len() {
        put_number(directory, NEXTS + 2 * chosen[j - 1], chosen[j]);
    }
}
