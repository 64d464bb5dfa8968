//! The threaded run of a scene: each card in a cell on a device, and each script in a thread of its own.
#![tactic(auto)]

mod bases;
mod play;
#[cfg(test)]
mod tests;
mod threaded;

pub use threaded::at_once;
