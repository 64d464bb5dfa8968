//! The forms of PINs and PUKs, and of the data that bear two of them (SP 800-73-4 part 2, VERIFY, CHANGE REFERENCE DATA
//! and RESET RETRY COUNTER).
#![tactic(auto)]

mod pairs;
mod secrets;
#[cfg(test)]
mod tests;

pub use pairs::{read_pair, read_unblock};
pub use secrets::{read_pin, read_puk};
