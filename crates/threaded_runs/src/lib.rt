//! Scripts that are run beside each other, each in a thread of its own, over cells behind turnstiles.
#![tactic(auto)]

mod beside;
mod cells;
mod stood;
mod whole;
mod worker;

pub use whole::{AtOnce, play_at_once};
