//! Laws of connections: how they open and close, what waits for an answer on them, and how their data come in pieces.
#![tactic(auto)]

mod laws;

pub use laws::{
    challenges_are_answered_once, connections_open_once, pieces_join, power_and_epochs_are_told,
};
