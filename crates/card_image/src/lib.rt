//! The memory of a card on a device that can lose power, whatever form its objects have there.
#![tactic(auto)]

mod comparing;
mod header;
mod image;
mod keys;
pub mod layout;
mod looking;
mod migrating;
mod objects;
mod personalising;
mod references;
mod room;
mod store;
mod values;

pub use image::Image;
pub use objects::Objects;
pub use store::Ticket;
pub use values::lay_value;
