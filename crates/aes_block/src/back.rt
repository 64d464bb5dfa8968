// The steps of a round undone, by tables.
ghost use Rattle.std.specs.Prelude.{◌≡◌, [], ◌∷◌};
ghost use Rattle.piv_model.specs.Field.{sub_byte};
ghost use Rattle.piv_model.specs.Cipher.{circulant, sub_bytes, shift_rows, mix_columns};
ghost use Rattle.aes_block.specs.Words.{first, second, third, fourth, bytes_of, all_bytes_of, multiples};

use crate::back_tables::{UNMIX_0, UNMIX_1, UNMIX_2, UNMIX_3, UNSUB};
use crate::words::{first, fourth, second, third};

/// The byte with this S-box value.
pub fn unsub(b: u8) -> u8
    ensures { sub_byte result ≡ b }
{
    UNSUB[b as usize]
}

// What each byte of a mixed column adds to the column.
fn unmix_0(b: u8) -> u32
    ensures { bytes_of result ≡ multiples 14 9 13 11 b }
{
    UNMIX_0[b as usize]
}

fn unmix_1(b: u8) -> u32
    ensures { bytes_of result ≡ multiples 11 14 9 13 b }
{
    UNMIX_1[b as usize]
}

fn unmix_2(b: u8) -> u32
    ensures { bytes_of result ≡ multiples 13 11 14 9 b }
{
    UNMIX_2[b as usize]
}

fn unmix_3(b: u8) -> u32
    ensures { bytes_of result ≡ multiples 9 13 11 14 b }
{
    UNMIX_3[b as usize]
}

// The column that is mixed to w.
fn unmixed(w: u32) -> u32
    ensures { bytes_of result ≡ circulant 14 11 13 9
        (first w) (second w) (third w) (fourth w) [] }
{
    (unmix_0(first(w)) ^ unmix_1(second(w))) ^ (unmix_2(third(w)) ^ unmix_3(fourth(w)))
}

// The column whose S-box values are the first byte of a, the second of b, ..
fn unsubstituted(a: u32, b: u32, c: u32, d: u32) -> u32
    ensures { sub_bytes (bytes_of result) ≡ first a ∷ second b ∷ third c ∷ fourth d ∷ [] }
{
    u32::from_be_bytes([
        unsub(first(a)),
        unsub(second(b)),
        unsub(third(c)),
        unsub(fourth(d)),
    ])
}

/// The state whose columns are mixed to s.
pub fn unmixed_columns(s: [u32; 4]) -> [u32; 4]
    ensures { mix_columns (all_bytes_of result) ≡ all_bytes_of s }
{
    [unmixed(s[0]), unmixed(s[1]), unmixed(s[2]), unmixed(s[3])]
}

/// The state from which the S-box and the rotation of rows make s.
pub fn unsubstituted_rows(s: [u32; 4]) -> [u32; 4]
    ensures { shift_rows (sub_bytes (all_bytes_of result)) ≡ all_bytes_of s }
{
    let [a, b, c, d] = s;
    [
        unsubstituted(a, d, c, b),
        unsubstituted(b, a, d, c),
        unsubstituted(c, b, a, d),
        unsubstituted(d, c, b, a),
    ]
}
