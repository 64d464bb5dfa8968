// All rounds under a schedule, there and back.
ghost use Rattle.std.specs.Prelude.{◌≡◌, ◌+◌, ◌*◌, ◌≤◌, ◌<◌, ◌∷◌, [], slice_index};
ghost use Rattle.piv_model.specs.Cipher.{IsBlock, all_rounds};
ghost use Rattle.aes_block.specs.Words.{schedule_of};

use crate::back::{unmixed_columns, unsubstituted_rows};
use crate::forward::{last_round, mixed_round};
use crate::words::{add, load, store};

// Round key k: words 4 k to 4 k + 3.
fn round_key(words: &[u32; 60], k: usize) -> [u32; 4]
    requires { k < 15 }
    ensures { result ≡ slice_index words.now (4 * k) ∷ slice_index words.now (4 * k + 1)
        ∷ slice_index words.now (4 * k + 2) ∷ slice_index words.now (4 * k + 3) ∷ [] }
{
    let at = 4 * k;
    [words[at], words[at + 1], words[at + 2], words[at + 3]]
}

/// The block through the nk + 6 rounds of a schedule.
pub fn forward(nk: usize, words: &[u32; 60], block: &[u8; 16]) -> [u8; 16]
    requires { nk ≤ 8 }
    ensures { result ≡ all_rounds nk (schedule_of nk words.now) block.now }
{
    let mut state = add(load(block), round_key(words, 0));
    for done in 0..nk + 5 {
        let next = mixed_round(state, round_key(words, done + 1));
        state = next;
    }
    store(last_round(state, round_key(words, nk + 6)))
}

/// The block that those rounds take to this one.
pub fn backward(nk: usize, words: &[u32; 60], block: &[u8; 16]) -> [u8; 16]
    requires { nk ≤ 8 }
    ensures block { IsBlock result }
    ensures back { all_rounds nk (schedule_of nk words.now) result ≡ block.now }
{
    let mut state = unsubstituted_rows(add(load(block), round_key(words, nk + 6)));
    for undone in 0..nk + 5 {
        let mixed = add(state, round_key(words, nk + 5 - undone));
        let earlier = unsubstituted_rows(unmixed_columns(mixed));
        state = earlier;
    }
    store(add(state, round_key(words, 0)))
}
