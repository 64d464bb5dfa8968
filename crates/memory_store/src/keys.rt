// A key, expanded once.
ghost use Rattle.std.specs.Prelude.{◌≡◌, IsTrue};
ghost use Rattle.piv_model.specs.Cipher.{encipher};
ghost use Rattle.piv_model.specs.Sound.{is_algorithm, is_card_key, key_size};
ghost use Rattle.piv_model.specs.Starts.{key_of};

use aes_block::Key;
use piv_model::KeyBytes;
use std::marker::Model;

#[derive(Drop)]
pub(crate) struct StoredKey {
    algorithm: u8,
    key: Key,
}

impl Model for StoredKey {
    ghost use Rattle.std.specs.Prelude.{IsTrue};
    ghost use Rattle.piv_model.specs.Memory.{CardKey};
    ghost use Rattle.piv_model.specs.Sound.{is_algorithm};

    ghost Value = { CardKey };

    ghost view = { λ a. record { algorithm = a.algorithm; key = a.key } };

    ghost invariant = { λ a. IsTrue (is_algorithm a.algorithm) };
}

// The bytes of a key of this algorithm.
fn size_of_key(algorithm: u8) -> usize
    requires { IsTrue (is_algorithm algorithm) }
    ensures { result ≡ key_size algorithm }
{
    match algorithm {
        0x08 => 16,
        0x0A => 24,
        _ => 32,
    }
}

impl StoredKey {
    pub(crate) fn new(key: &KeyBytes) -> StoredKey
        requires { IsTrue (is_card_key (key_of key.now)) }
        ensures { result ≡ key_of key.now }
    {
        let size = size_of_key(key.algorithm);
        StoredKey {
            algorithm: key.algorithm,
            key: Key::new(&key.bytes[..size]).unwrap(),
        }
    }

    pub(crate) fn algorithm(&self) -> u8
        ensures value { result ≡ self.now.algorithm }
        ensures one { IsTrue (is_algorithm result) }
    {
        self.algorithm
    }

    pub(crate) fn encipher(&self, block: &[u8; 16]) -> [u8; 16]
        ensures { result ≡ encipher self.now.key block.now }
    {
        self.key.encrypt(block)
    }
}
