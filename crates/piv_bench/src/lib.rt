//! The scheduled run of a scene: each card in a cell on a device, and the scripts step by step in the order of the
//! schedule.
#![tactic(auto)]

mod laws;
mod play;
mod scene_run;

pub use laws::runs_share_out;
pub use scene_run::bench;
