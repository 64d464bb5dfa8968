//! Rows of bytes that can lose power within a write.
#![tactic(auto)]

mod device;
mod fused;
mod loss;
mod memory;
#[cfg(test)]
mod tests;

pub use device::{Lost, Nvm};
pub use fused::Fused;
pub use loss::{How, Loss, Pattern};
pub use memory::{MemNvm, NoMemory};
