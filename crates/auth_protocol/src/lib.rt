//! The challenges and Witnesses of GENERAL AUTHENTICATE: what a connection may still answer, and how
//! (SP 800-73-4 part 2).
#![tactic(auto)]

mod encipher;
mod exchange;
mod form;
#[cfg(test)]
mod tests;

pub use encipher::{Encipher, StoreKeys};
pub use exchange::{AuthOut, Exchange, Pending};
pub use form::{AuthAsk, meaning};
