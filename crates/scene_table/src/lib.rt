//! The values of a scene's TOML document, and names that are found fast.
#![tactic(auto)]

mod bytes;
mod document;
mod fault;
mod names;
mod values;

pub use bytes::{digits, key_or, one_byte, pin_if_any, pin_or, puk_or, random_or, some_digits};
pub use document::read_document;
pub use fault::SceneFault;
pub use names::Names;
pub use values::{
    all_strings, all_tables, find, find_items, from_one, from_one_or, from_zero, name_value,
};
