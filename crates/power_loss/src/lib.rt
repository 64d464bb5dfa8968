//! Words for losses of power, which several crates cite, and plans of such losses.
#![tactic(auto)]

mod loss;
mod plan;
#[cfg(test)]
mod tests;

pub use loss::Loss;
pub use plan::Plan;
