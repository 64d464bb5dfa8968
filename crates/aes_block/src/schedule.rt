// The key schedule (FIPS 197, section 5.2).
ghost use Rattle.std.specs.Prelude.{◌≡◌, ◌+◌, ◌*◌, ◌<◌, ◌≤◌, length, take};
ghost use Rattle.piv_model.specs.Field.{power_x};
ghost use Rattle.piv_model.specs.Cipher as spec;
ghost use Rattle.aes_block.specs.Words.{bytes_of, all_bytes_of, schedule_of};

use crate::forward::{sub, substituted};
use crate::tables::POWERS;
use crate::words::{first, fourth, second, third};

// A power of x, up to the tenth.
fn power(n: usize) -> u8
    requires { n < 11 }
    ensures { result ≡ power_x n }
{
    POWERS[n]
}

// What is added to word i - nk to make word i, from the word w before it.
fn term(nk: usize, i: usize, w: u32) -> u32
    requires size { 4 ≤ nk }
    requires place { (nk ≤ i) × (i < 4 * (nk + 7)) }
    ensures { bytes_of result ≡ spec.schedule_term nk i (bytes_of w) }
{
    if i % nk == 0 {
        let constant = power(i / nk - 1);
        u32::from_be_bytes([
            sub(second(w)) ^ constant,
            sub(third(w)),
            sub(fourth(w)),
            sub(first(w)),
        ])
    } else if nk == 8 && i % 8 == 4 {
        substituted(w, w, w, w)
    } else {
        w
    }
}

// Word i of the key.
fn key_word(key: &[u8], i: usize) -> u32
    requires { 4 * i + 4 ≤ length key.now }
    ensures { bytes_of result ≡ spec.key_word key.now i }
{
    let at = 4 * i;
    u32::from_be_bytes([key[at], key[at + 1], key[at + 2], key[at + 3]])
}

/// The words of a key of nk words, 4 (nk + 7) of them.
// Inlined, so that each caller's nk is a constant and the remainder by it no division.
#[inline(always)]
pub fn expand(nk: usize, key: &[u8]) -> [u32; 60]
    requires size { (4 ≤ nk) × (nk ≤ 8) }
    requires long { length key.now ≡ 4 * nk }
    ensures key { all_bytes_of (take nk result) ≡ key.now }
    ensures all { schedule_of nk result ≡ spec.words nk key.now (4 * (nk + 7)) }
{
    let mut words = [0u32; 60];
    'given: for i in 0..nk {
        words[i] = key_word(key, i);
    }
    'derived: for i in nk..4 * (nk + 7) {
        words[i] = words[i - nk] ^ term(nk, i, words[i - 1]);
    }
    words
}
