//! AES (FIPS 197), one block at a time, under keys of 128, 192 and 256 bits.
#![tactic(auto)]

mod back;
mod back_tables;
mod forward;
mod key;
mod laws;
mod rounds;
mod schedule;
mod tables;
mod words;

pub use key::Key;
pub use laws::{deciphering_undoes_enciphering, enciphering_undoes_deciphering};

#[cfg(test)]
mod tests;
