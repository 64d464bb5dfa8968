//! Clients of cards: threads that take turns at the cells behind turnstiles.
#![tactic(auto)]

mod act_job;
mod client;
mod gates;
mod held_cell;
mod record;

pub use act_job::ActJob;
pub use client::Client;
pub use gates::Gates;
pub use held_cell::HeldCell;
pub use record::Record;
