//! Turns of threads at one value.
#![tactic(auto)]

mod held;
mod movable;
#[cfg(test)]
mod numbers;
mod pass;
mod rule;
mod steps;
#[cfg(test)]
mod tests;
mod view;

pub use held::{Held, Job};
pub use pass::{NoMemory, Pass, Turnstile, TurnstileFault};
