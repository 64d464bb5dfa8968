// Laws of the cipher itself, over all keys of the three sizes and all blocks.
ghost use Rattle.std.specs.Prelude.{◌≡◌, ◌↔◌, List, ℕ};
ghost use Rattle.piv_model.specs.Cipher.{IsBlock, IsKey, encipher, Deciphers};

/// D(key, E(key, x)) = x: a block is the only one that its cipher deciphers to.
pub fn deciphering_undoes_enciphering()
    ensures block { (k x : List ℕ) → IsKey k → IsBlock x → IsBlock (encipher k x) }
    ensures back { (k x z : List ℕ) → IsKey k → IsBlock x → Deciphers k (encipher k x) z ↔ (z ≡ x) }
{}

/// E(key, D(key, y)) = y: exactly one block enciphers to a block.
pub fn enciphering_undoes_deciphering()
    ensures one { (k y : List ℕ) → IsKey k → IsBlock y → (x : List ℕ) × Deciphers k y x }
    ensures only { (k y x z : List ℕ) → IsKey k → Deciphers k y x → Deciphers k y z → x ≡ z }
{}
