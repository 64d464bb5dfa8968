// The tries of a reference, found by looking back through a history, as plain programs. Entries
// are given with the newest first.
ghost use Rattle.std.specs.Prelude.{◌≡◌, option_map};
ghost use Rattle.piv_model.specs.Commands.{command_of};
ghost use Rattle.piv_model.specs.Entries.{entry_of};
ghost use Rattle.piv_model.specs.Memory.{reference};
ghost use Rattle.piv_model.specs.Base.{Base, profile};
ghost use Rattle.piv_rules.specs.Effects.{took_by};
ghost use Rattle.piv_rules.specs.Memories.{running, did, filled_by, spent_by, tries};
ghost use Rattle.piv_rules.specs.Lent.{ask_of, past_of};

use crate::asked::{Asked, Purpose};
use crate::lookback::{Asks, is_mismatched};
use piv_model::status_words::SUCCESS;
use piv_model::{Command, Entry, RefId, Took};

/// The command that the last loss of power cut short.
pub fn running_at<'a>(entries: &[Entry<'a>]) -> Option<(u32, Command<'a>)>
    ensures { option_map (λ r. (r.0, command_of r.1)) result ≡ running (past_of entries.now) }
{
    match entries.split_first() {
        None => None,
        Some((entry, before)) => match entry {
            Entry::Cut { running } => *running,
            _ => running_at(before),
        },
    }
}

/// How far a command came that is answered this word.
pub fn took_by(word: u16) -> Took
    ensures { result ≡ took_by word }
{
    if word == SUCCESS {
        Took::Done
    } else if is_mismatched(word) {
        Took::Spent
    } else {
        Took::Nothing
    }
}

// What an entry did to the memory: a command, and how far it came.
fn did_by<'a>(entry: &Entry<'a>, before: &[Entry<'a>]) -> Option<(Command<'a>, Took)>
    ensures { option_map (λ d. (command_of d.0, d.1)) result
        ≡ did (past_of before.now) (entry_of entry.now) }
{
    match entry {
        Entry::Call { command, sw, .. } => Some((*command, took_by(*sw))),
        Entry::Up { took } => match running_at(before) {
            Some((_, command)) => Some((command, *took)),
            None => None,
        },
        _ => None,
    }
}

// The counter of a reference is filled.
fn fills(r: RefId, asked: &Asked<'_>, took: Took) -> bool
    ensures { result ≡ filled_by r (ask_of asked.now) took }
{
    match asked {
        Asked::Compare(compared, _, purpose) if took == Took::Done => {
            r == *compared || (matches!(purpose, Purpose::Unblock(_)) && r == RefId::Pin)
        }
        _ => false,
    }
}

// A try of a reference is spent.
fn spends(r: RefId, asked: &Asked<'_>, took: Took) -> bool
    ensures { result ≡ spent_by r (ask_of asked.now) took }
{
    match asked {
        Asked::Compare(compared, _, _) if took == Took::Spent => r == *compared,
        _ => false,
    }
}

/// The tries that are left of a reference, which began with `began` of `limit`.
#[tactic(auto, using(crate::proofs::Steps::tries_steps))]
pub fn tries_left<A: Asks>(asks: &A, entries: &[Entry<'_>], r: RefId, limit: u8, began: u8) -> u8
    ensures { (B : Base) → A.profile asks.now ≡ profile B
        → (reference B.memory r).limit ≡ limit → (reference B.memory r).tries ≡ began
        → result ≡ tries B (past_of entries.now) r }
{
    match entries.split_first() {
        None => began,
        Some((entry, before)) => {
            let left = tries_left(asks, before, r, limit, began);
            match did_by(entry, before) {
                None => left,
                Some((command, took)) => {
                    let asked = asks.asked(command);
                    if fills(r, &asked, took) {
                        limit
                    } else if spends(r, &asked, took) {
                        left.saturating_sub(1)
                    } else {
                        left
                    }
                }
            }
        }
    }
}
