// Chains of blocks and of keys.
ghost use Rattle.std.specs.Prelude.{◌≡◌};
ghost use Rattle.aes_bench.specs.Chain.{chained, rekeyed};

use aes_block::Key;

/// `count` blocks, each the cipher of the one before it.
pub fn blocks(key: &Key, count: u32, first: [u8; 16]) -> [u8; 16]
    ensures { result ≡ chained key.now count first }
{
    let mut last = first;
    for _done in 0..count {
        last = key.encrypt(&last);
    }
    last
}

/// `count` blocks, each the cipher of the one before it under a key of its own: the key before it,
/// whose first byte is added to that of the block before it.
pub fn keys(first_key: [u8; 16], count: u32, first: [u8; 16]) -> [u8; 16]
    ensures { result ≡ (rekeyed first_key count first).block }
{
    let mut bytes = first_key;
    let mut block = first;
    for _done in 0..count {
        bytes[0] ^= block[0];
        let key = Key::new(&bytes).unwrap();
        block = key.encrypt(&block);
    }
    block
}
