//! A card with its history: one act, one entry of a legal history, whatever power does.
#![tactic(auto)]

mod acts;
mod base;
mod cell;
mod compared;
mod connections;
mod epochs;
mod exchanging;
mod tally;

pub use base::{CellBase, Plan};
pub use card_acts::{Act, Answer};
pub use card_app::CardFault;
pub use cell::CardCell;
