//! The cards of a run as one port, whose owner makes each turn himself.
#![tactic(auto)]

mod beginnings;
mod cells;
mod laws;

pub use beginnings::Beginnings;
pub use cells::CellPort;
pub use laws::owners_have_recorded_all;
