//! Command and reply APDUs of the short forms (ISO/IEC 7816-4).
#![tactic(auto)]

mod commands;
mod replies;
#[cfg(test)]
mod tests;

pub use commands::{read_command, write_command};
pub use replies::{read_reply, write_reply};
