// The random blocks of a card.
ghost use Rattle.std.specs.Prelude.{◌≡◌, ◌<◌, ◌≤◌, ◌+◌, ◌*◌, ℕ, List, if◌then◌else◌};
ghost use Rattle.piv_rules.specs.RandomBlocks.{block_from, random_block, word_bytes};
ghost use Rattle.challenge_blocks.specs.Blocks.{IsAt, most_blocks};

use rand_chacha::ChaCha20Rng;
use rand_core::SeedableRng;
use rand_core::utils::NextWord;

// The next word's bytes.
fn word_from(rng: &mut ChaCha20Rng) -> [u8; 4]
    ensures word { (key : List ℕ) (n : ℕ) → n < 4 * most_blocks + 4 → IsAt key n rng.old → result ≡ word_bytes key n }
    ensures moved { (key : List ℕ) (n : ℕ) → n < 4 * most_blocks + 4 → IsAt key n rng.old → IsAt key (n + 1) rng.new }
{
    rng.next_word().to_le_bytes()
}

// The next block.
fn block_from(rng: &mut ChaCha20Rng) -> [u8; 16]
    ensures block { (key : List ℕ) (n : ℕ) → n ≤ most_blocks → IsAt key (4 * n) rng.old
        → result ≡ block_from key (4 * n) }
    ensures moved { (key : List ℕ) (n : ℕ) → n ≤ most_blocks → IsAt key (4 * n) rng.old
        → IsAt key (4 * (n + 1)) rng.new }
{
    let [a, b, c, d] = word_from(rng);
    let [e, f, g, h] = word_from(rng);
    let [i, j, k, l] = word_from(rng);
    let [m, n, o, p] = word_from(rng);
    [a, b, c, d, e, f, g, h, i, j, k, l, m, n, o, p]
}

/// The random blocks of a card. The next one is drawn already.
#[derive(Drop)]
pub struct Blocks {
    rng: ChaCha20Rng,
    next: [u8; 16],
}

impl Blocks {
    ghost use Rattle.challenge_blocks.specs.Next.{IsNext};

    /// The blocks of a card with these random bytes. None was used.
    pub fn new(random: [u8; 32]) -> Blocks
        ensures { IsNext random 0 result }
    {
        let mut rng = ChaCha20Rng::from_seed(random);
        let next = block_from(&mut rng);
        Blocks { rng, next }
    }

    /// The next block.
    pub fn block(&self) -> &[u8; 16]
        ensures { (random : List ℕ) (used : ℕ) → IsNext random used self.now → result.now ≡ random_block random used }
    {
        &self.next
    }

    // Draws another block.
    fn draw(&mut self)
        ensures { (random : List ℕ) (n : ℕ) → n < most_blocks → IsNext random n self.old
            → IsNext random (n + 1) self.new }
    {
        self.next = block_from(&mut self.rng);
    }

    /// Draws another block, where the next one was used.
    pub fn draw_if(&mut self, used: bool)
        ensures { (random : List ℕ) (n : ℕ) → n < most_blocks → IsNext random n self.old
            → IsNext random (if used then n + 1 else n) self.new }
    {
        if used {
            self.draw();
        }
    }
}
