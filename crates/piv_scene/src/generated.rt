// The scene that a generator makes of a number.
ghost use Rattle.std.specs.Prelude.{◌≡◌, ◌≤◌, ◌<◌, ◌++◌, replicate, IfOk};
ghost use Rattle.std.specs.Int.{w64, to_le_bytes};
ghost use Rattle.piv_scene.specs.GeneratedScene.{generated_card as generated_card_of, generated_script as generated_script_of, name_of_script as name_of_script_of, word_of as word_of_number, generated_scene};
ghost use Rattle.piv_scene.specs.SceneValues.{IsScene};

use crate::generated_lines::{connect_line, generated_line, select_line};
use crate::scene::Scene;
use piv_model::{NoMemory, plain_start};
use rand_chacha::ChaCha20Rng;
use rand_core::SeedableRng;
use rand_core::utils::NextWord;
use scene_cards::SceneCard;
use script_line::Script;
use std::alloc::Global;

const MOST_TRIES: u8 = 15;

fn generated_card(alloc: Global) -> Result<SceneCard, NoMemory>
    ensures { IfOk result (λ card. card ≡ generated_card_of) }
{
    let mut start = plain_start(alloc)?;
    start.limit_pin = MOST_TRIES;
    start.limit_puk = MOST_TRIES;
    SceneCard::new(alloc, "A", Some("front"), Some("gate"), start)
}

// The generator's 32 bytes.
fn seed_of(number: u64) -> [u8; 32]
    ensures { result ≡ to_le_bytes w64 number ++ replicate 24 0 }
{
    let mut seed = [0; 32];
    seed[..8].copy_from_slice(&number.to_le_bytes());
    seed
}

// A word of the generator by its place.
#[tactic(auto, unfolding(crate::specs::GeneratedScene::word_of))]
fn word_of(number: u64, place: u32) -> u32
    ensures { result ≡ word_of_number number place }
{
    let mut words = ChaCha20Rng::from_seed(seed_of(number));
    words.set_word_pos(u128::from(place));
    words.next_word()
}

fn name_of_script(k: u32) -> &'static str
    ensures { result.now ≡ name_of_script_of k }
{
    match k {
        0 => "s0",
        1 => "s1",
        2 => "s2",
        _ => "s3",
    }
}

fn generated_script(alloc: Global, n: u32, number: u64, k: u32) -> Result<Script, NoMemory>
    requires few { n ≤ 4000 }
    requires fourth { k < 4 }
    ensures { IfOk result (λ script. script ≡ generated_script_of n number k) }
{
    let mut script = Script::new(alloc, name_of_script(k))?;
    script.push(connect_line(alloc, k)?)?;
    script.push(select_line(alloc)?)?;
    for j in 0..(n + 3 - k) / 4 {
        let line = generated_line(alloc, word_of(number, 4 * j + k))?;
        script.push(line)?;
    }
    Ok(script)
}

/// The scene of `n` lines that a number gives, 1 to 4,000, beside the two with which each of its four scripts begins.
pub fn make_scene(alloc: Global, n: u32, number: u64) -> Result<Scene, NoMemory>
    requires some { 1 ≤ n }
    requires few { n ≤ 4000 }
    ensures scene { IfOk result (λ scene. scene ≡ generated_scene n number) }
    ensures known { IfOk result IsScene }
{
    let mut cards = Vec::new(alloc);
    cards.push(generated_card(alloc)?)?;
    let mut scripts = Vec::new(alloc);
    for k in 0..4 {
        scripts.push(generated_script(alloc, n, number, k)?)?;
    }
    Ok(Scene::new(cards, scripts, Vec::new(alloc)))
}
