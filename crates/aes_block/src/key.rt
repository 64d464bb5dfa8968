// Keys.
ghost use Rattle.std.specs.Prelude.{◌≡◌, ◌↔◌, ◌⊎◌, ◌+◌, ◌*◌, ◌%◌, ◌≤◌, List, ℕ, length, take, IsSome, IfSome};
ghost use Rattle.piv_model.specs.Cipher.{encipher, IsKey, Deciphers};
ghost use Rattle.piv_model.specs.Cipher as spec;
ghost use Rattle.aes_block.specs.Words.{all_bytes_of, schedule_of};

use crate::rounds::{backward, forward};
use crate::schedule::expand;
use std::marker::Model;

/// An AES key with its schedule. Contracts see it as its bytes.
#[derive(Drop)]
pub struct Key {
    // The schedule's 4 (nk + 7) words, and then zeros.
    words: [u32; 60],
    // The length of the key in words.
    nk: usize,
}

impl Model for Key {
    ghost Value = { List ℕ };

    ghost view = { λ a. all_bytes_of (take a.nk a.words) };

    ghost invariant = { λ a. ((4 ≤ a.nk) × (a.nk ≤ 8) × (a.nk % 2 ≡ 0))
        × (schedule_of a.nk a.words
        ≡ spec.words a.nk (all_bytes_of (take a.nk a.words)) (4 * (a.nk + 7))) };
}

impl Key {
    /// The key of these bytes: `None` exactly where they aren't 16, 24 or 32.
    pub fn new(bytes: &[u8]) -> Option<Key>
        ensures found { IsSome result
            ↔ ((length bytes.now ≡ 16) ⊎ (length bytes.now ≡ 24) ⊎ (length bytes.now ≡ 32)) }
        ensures value { IfSome result (λ key. key ≡ bytes.now) }
    {
        match bytes.len() {
            16 => Some(Key::expanded(4, bytes)),
            24 => Some(Key::expanded(6, bytes)),
            32 => Some(Key::expanded(8, bytes)),
            _ => None,
        }
    }

    // The key of nk words.
    #[inline(always)]
    fn expanded(nk: usize, bytes: &[u8]) -> Key
        requires size { (4 ≤ nk) × (nk ≤ 8) × (nk % 2 ≡ 0) }
        requires long { length bytes.now ≡ 4 * nk }
        ensures { result ≡ bytes.now }
    {
        Key {
            words: expand(nk, bytes),
            nk,
        }
    }

    /// The block under the key: FIPS 197, section 5.1.
    pub fn encrypt(&self, block: &[u8; 16]) -> [u8; 16]
        ensures { result ≡ encipher self.now block.now }
    {
        forward(self.nk, &self.words, block)
    }

    /// The one block that `encrypt` takes to this one.
    pub fn decrypt(&self, block: &[u8; 16]) -> [u8; 16]
        ensures value { Deciphers self.now block.now result }
        ensures only { (x : List ℕ) → Deciphers self.now block.now x → x ≡ result }
    {
        backward(self.nk, &self.words, block)
    }

    /// The algorithm identifier (SP 800-78-4): 08, 0A and 0C for AES-128, AES-192 and AES-256.
    pub fn algorithm(&self) -> u8
        ensures key { IsKey self.now }
        ensures aes_128 { length self.now ≡ 16 → result ≡ 0x08 }
        ensures aes_192 { length self.now ≡ 24 → result ≡ 0x0A }
        ensures aes_256 { length self.now ≡ 32 → result ≡ 0x0C }
    {
        match self.nk {
            4 => 0x08,
            6 => 0x0A,
            _ => 0x0C,
        }
    }
}
