//! A store of a card's memory in memory, which loses power where a list says so.
#![tactic(auto)]

mod keys;
mod loss;
mod memory;
mod reference;
mod store;
mod value;

pub use loss::{Leaves, Loss};
pub use store::{MemoryStore, Ticket};
