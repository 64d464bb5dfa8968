//! Whether an access rule holds on a connection (SP 800-73-4 part 1, access rules).
#![tactic(auto)]

mod decision;
#[cfg(test)]
mod tests;

pub use decision::{Status, Verdict, decide};
