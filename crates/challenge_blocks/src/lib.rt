//! The random blocks of a card, of which the next one is always drawn.
#![tactic(auto)]

mod blocks;
#[cfg(test)]
mod tests;

pub use blocks::Blocks;
