// A cipher under the keys of a card.
ghost use Rattle.std.specs.Prelude.{◌≡◌, Option, IfSome, IsTrue};
ghost use Rattle.auth_protocol.specs.Keys.{Keys, enciphered};

use piv_model::{KeyId, Store};

/// Enciphers under the keys of a card. What is said of the answer holds where the keys are told.
pub trait Encipher {
    /// The card management key and the card authentication key, where they are told.
    ghost keys: { Self → Option Keys };

    /// The block enciphered under a key (FIPS 197).
    fn encipher(&self, key: KeyId, block: &[u8; 16]) -> [u8; 16]
        ensures { IfSome (keys self.now) (λ told. result ≡ enciphered told key block.now) };
}

/// The keys of a store that has power.
#[derive(Drop)]
pub struct StoreKeys<'a, S: Store> {
    pub store: &'a S,
    ghost on: { IsTrue (S.state store.now).power.on },
}

impl<'a, S: Store> StoreKeys<'a, S> {
    pub fn new(store: &'a S) -> StoreKeys<'a, S>
        requires { IsTrue (S.state store.now).power.on }
        ensures { result.store.now ≡ store.now }
    {
        StoreKeys { store }
    }
}

impl<'a, S: Store> Encipher for StoreKeys<'a, S> {
    ghost use Rattle.std.specs.Prelude.{option_map};
    ghost use Rattle.auth_protocol.specs.Keys.{keys_in};

    ghost keys = { λ k. option_map keys_in (S.state k.store.now).mem };

    fn encipher(&self, key: KeyId, block: &[u8; 16]) -> [u8; 16] {
        self.store.encipher(key, block)
    }
}
