//! A record that is replaced whole, whatever a loss of power leaves.
#![tactic(auto)]

mod laying;
#[cfg(test)]
mod tests;
mod twin;

pub use laying::lay;
pub use twin::Twin;
