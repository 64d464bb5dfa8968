// The keys of a device.
ghost use Rattle.std.specs.Prelude.{◌≡◌, ◌≤◌, ◌+◌, length, true, IfSome};
ghost use Rattle.piv_model.specs.Sound.{key_size};
ghost use Rattle.card_image.specs.Header.{header_of, key_in};
ghost use Rattle.card_image.specs.Places.{place_of_key};

use crate::layout::KEY;
use aes_block::Key;
use nvm_device::Nvm;
use piv_model::KeyId;

// How many bytes a key has; those of an unknown algorithm have 32.
fn size_of_key(algorithm: u8) -> usize
    ensures { result ≡ key_size algorithm }
{
    match algorithm {
        0x08 => 16,
        0x0A => 24,
        _ => 32,
    }
}

fn place_of_key(key: KeyId) -> usize
    ensures { result ≡ place_of_key key }
{
    match key {
        KeyId::AdminKey => 0,
        KeyId::CardAuth => KEY,
    }
}

/// Both algorithms and keys.
#[tactic(auto, unfolding(crate::specs::Header::header_of))]
pub(crate) fn read_keys<N: Nvm>(nvm: &N) -> [u8; 66]
    requires on { (N.state nvm.now).power.on ≡ true }
    requires size { 1114112 ≤ (N.state nvm.now).size }
    ensures size { length result ≡ 66 }
    ensures keys { IfSome (N.state nvm.now).bytes (λ row. result ≡ (header_of row).keys) }
{
    let mut out = [0; 66];
    nvm.read(49, &mut out);
    out
}

/// A key, expanded.
pub(crate) fn read_key<N: Nvm>(nvm: &N, key: KeyId) -> Key
    requires on { (N.state nvm.now).power.on ≡ true }
    requires size { 1114112 ≤ (N.state nvm.now).size }
    ensures { IfSome (N.state nvm.now).bytes (λ row. result ≡ (key_in (header_of row).keys (place_of_key key)).key) }
{
    let keys = read_keys(nvm);
    let at = place_of_key(key);
    let size = size_of_key(keys[at]);
    Key::new(&keys[at + 1..at + 1 + size]).unwrap()
}
