//! Elements of BER-TLV with definite lengths (ISO/IEC 7816-4), read in place.
#![tactic(auto)]

mod cursor;
mod fault;
mod one_reading;
mod reading;
mod spelling;

pub use cursor::{Cursor, Tlv};
pub use fault::{TlvFault, TlvKind};
pub use one_reading::elements_have_one_reading;
pub use spelling::header;

#[cfg(test)]
mod tests;
