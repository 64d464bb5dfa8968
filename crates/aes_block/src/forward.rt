// The steps of a round, by tables.
ghost use Rattle.std.specs.Prelude.{◌≡◌, [], ◌∷◌};
ghost use Rattle.piv_model.specs.Field.{sub_byte};
ghost use Rattle.piv_model.specs.Cipher.{circulant, add_bytes, sub_bytes, shift_rows, mix_columns};
ghost use Rattle.aes_block.specs.Words.{first, second, third, fourth, bytes_of, all_bytes_of, multiples};

use crate::tables::{MIX_0, MIX_1, MIX_2, MIX_3, SBOX};
use crate::words::{first, fourth, second, third};

/// The S-box of a byte.
pub fn sub(b: u8) -> u8
    ensures { result ≡ sub_byte b }
{
    SBOX[b as usize]
}

// What each byte of a column adds to the mixed column, once it is through the S-box.
fn mix_0(b: u8) -> u32
    ensures { bytes_of result ≡ multiples 2 1 1 3 (sub_byte b) }
{
    MIX_0[b as usize]
}

fn mix_1(b: u8) -> u32
    ensures { bytes_of result ≡ multiples 3 2 1 1 (sub_byte b) }
{
    MIX_1[b as usize]
}

fn mix_2(b: u8) -> u32
    ensures { bytes_of result ≡ multiples 1 3 2 1 (sub_byte b) }
{
    MIX_2[b as usize]
}

fn mix_3(b: u8) -> u32
    ensures { bytes_of result ≡ multiples 1 1 3 2 (sub_byte b) }
{
    MIX_3[b as usize]
}

// The mixed column of these four bytes' S-box values: the first of a, the second of b, ..
fn mixed(a: u32, b: u32, c: u32, d: u32) -> u32
    ensures { bytes_of result ≡ circulant 2 3 1 1
        (sub_byte (first a)) (sub_byte (second b))
        (sub_byte (third c)) (sub_byte (fourth d)) [] }
{
    (mix_0(first(a)) ^ mix_1(second(b))) ^ (mix_2(third(c)) ^ mix_3(fourth(d)))
}

/// The column of these four bytes' S-box values.
pub fn substituted(a: u32, b: u32, c: u32, d: u32) -> u32
    ensures { bytes_of result ≡ sub_byte (first a) ∷ sub_byte (second b)
        ∷ sub_byte (third c) ∷ sub_byte (fourth d) ∷ [] }
{
    u32::from_be_bytes([sub(first(a)), sub(second(b)), sub(third(c)), sub(fourth(d))])
}

/// A round under its key.
// The key is added word by word: four sums at once are made in one wide register, which is slower.
pub fn mixed_round(s: [u32; 4], key: [u32; 4]) -> [u32; 4]
    ensures { all_bytes_of result
        ≡ add_bytes (mix_columns (shift_rows (sub_bytes (all_bytes_of s)))) (all_bytes_of key) }
{
    let [a, b, c, d] = s;
    [
        mixed(a, b, c, d) ^ key[0],
        mixed(b, c, d, a) ^ key[1],
        mixed(c, d, a, b) ^ key[2],
        mixed(d, a, b, c) ^ key[3],
    ]
}

/// The last round under its key: the columns aren't mixed.
pub fn last_round(s: [u32; 4], key: [u32; 4]) -> [u32; 4]
    ensures { all_bytes_of result
        ≡ add_bytes (shift_rows (sub_bytes (all_bytes_of s))) (all_bytes_of key) }
{
    let [a, b, c, d] = s;
    [
        substituted(a, b, c, d) ^ key[0],
        substituted(b, c, d, a) ^ key[1],
        substituted(c, d, a, b) ^ key[2],
        substituted(d, a, b, c) ^ key[3],
    ]
}
