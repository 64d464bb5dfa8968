//! Chains of commands and pieces of replies (ISO/IEC 7816-4, command chaining and GET RESPONSE).
#![tactic(auto)]

mod filler;
mod joiner;
mod laws;
mod pieces;
#[cfg(test)]
mod tests;

pub use filler::Filler;
pub use joiner::{Joined, Joiner, Joining};
pub use laws::{cuttings_are_joined, pieces_are_whole};
pub use pieces::Pieces;
