//! The card: sixteen connections over a store, with chains of commands, pieces of replies, and losses of power within
//! any write (SP 800-73-4 part 2; ISO/IEC 7816-4).
#![tactic(auto)]

mod card;
mod exchanging;
mod slot;

pub use card::{Card, CardFault, Outcome};
