//! The readers and the cards of a scene by their names, for the players of its scripts.
#![tactic(auto)]

mod readers;
#[cfg(test)]
mod tests;

pub use readers::readers_of;
