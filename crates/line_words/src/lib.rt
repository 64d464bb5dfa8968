//! The words of which lines of text are made: names, identifiers, bytes and numbers.
#![tactic(auto)]

mod digits;
mod fault;
#[cfg(test)]
mod tests;
mod text;
mod words;

pub use digits::{read_body, read_status, read_upper, read_upper_byte};
pub use fault::LineFault;
pub use text::{Bytes, Text};
pub use words::{
    is_name, read_byte, read_bytes, read_mode, read_name, read_number, read_oid, words_of,
};
