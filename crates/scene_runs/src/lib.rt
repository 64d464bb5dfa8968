//! What the runs of a scene have in common: what a run takes besides its cells, and what it gives.
#![tactic(auto)]

mod prepared;
mod run_out;

pub use prepared::{Prepared, prepare};
pub use run_out::RunOut;
