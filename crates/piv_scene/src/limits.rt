// The limits of a scene, in their order.
ghost use Rattle.std.specs.Prelude.{◌≡◌, nat_lt, length};
ghost use Rattle.scene_cards.specs.CardLimits.{first_passed};
ghost use Rattle.piv_scene.specs.SceneLimits.{count_tests, line_tests, all_lines, limit_among};

use crate::sizes::{Size, lines_above, puts_above};
use piv_model::Limit;
use scene_cards::{Cards, cards_limit};
use script_line::Script;

const MOST_CARDS: usize = 8;

const MOST_SCRIPTS: usize = 64;

const MOST_LINES: usize = 4096;

const MOST_STEPS: usize = 65_536;

const LONGEST_PUT: u64 = 16_512;

const MOST_PUT: u64 = 16_777_216;

const LONGEST_CRYPT: u64 = 255;

const LONGEST_APDU: u64 = 512;

const LONGEST_LOGIN: u64 = 2128;

const LONGEST_AID: u64 = 16;

// Whether the scripts have more than 4,096 lines together.
fn too_many_lines(scripts: &[Script]) -> bool
    ensures { result ≡ nat_lt 4096 (length (all_lines scripts.now)) }
{
    let mut left = MOST_LINES;
    for script in scripts {
        let len = script.len();
        if len > left {
            return true;
        }
        left -= len;
    }
    false
}

// The first limit of numbers that is passed.
fn count_limit(cards: usize, scripts: &[Script], schedule: usize) -> Option<Limit>
    ensures { result ≡ first_passed (count_tests cards scripts.now schedule) }
{
    if cards > MOST_CARDS {
        return Some(Limit::Cards);
    }
    if scripts.len() > MOST_SCRIPTS {
        return Some(Limit::Scripts);
    }
    if too_many_lines(scripts) {
        return Some(Limit::Lines);
    }
    if schedule > MOST_STEPS {
        return Some(Limit::Schedule);
    }
    None
}

fn line_limit(scripts: &[Script]) -> Option<Limit>
    ensures { result ≡ first_passed (line_tests (all_lines scripts.now)) }
{
    if lines_above(scripts, Size::Put, LONGEST_PUT) {
        return Some(Limit::Put);
    }
    if puts_above(scripts, MOST_PUT) {
        return Some(Limit::Puts);
    }
    if lines_above(scripts, Size::Crypt, LONGEST_CRYPT) {
        return Some(Limit::Crypt);
    }
    if lines_above(scripts, Size::Apdu, LONGEST_APDU) {
        return Some(Limit::Apdu);
    }
    if lines_above(scripts, Size::Login, LONGEST_LOGIN) {
        return Some(Limit::Login);
    }
    if lines_above(scripts, Size::Aid, LONGEST_AID) {
        return Some(Limit::Aid);
    }
    None
}

/// The first limit that is passed.
pub(crate) fn first_limit(cards: &Cards<'_>, scripts: &[Script], schedule: usize) -> Option<Limit>
    ensures { result ≡ limit_among cards.now scripts.now schedule }
{
    match count_limit(cards.len(), scripts, schedule) {
        Some(limit) => Some(limit),
        None => match cards_limit(cards.as_slice()) {
            Some(limit) => Some(limit),
            None => line_limit(scripts),
        },
    }
}
