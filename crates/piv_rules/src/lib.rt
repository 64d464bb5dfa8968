//! The rules of the card, as definitions over its history, and their laws.
#![tactic(auto)]

mod asked;
mod counters;
mod entitled;
mod laws;
mod lookback;
mod seen;
mod table;

pub use asked::{Asked, Purpose};
pub use counters::{running_at, took_by, tries_left};
pub use entitled::is_entitled;
pub use laws::{one_entry_more, runs_are_legal};
pub use lookback::{
    Asks, Login, Pending, is_break, is_in_force, is_mismatched, pending_on, side_of,
};
pub use seen::{Counter, Seen, answer_word, conditions_of};
pub use table::{Conditions, word_of};
