//! Scenes: cards, scripts, and the order in which the scripts take steps.
#![tactic(auto)]

mod generated;
mod generated_lines;
mod limits;
mod lines;
mod scene;
mod schedule;
mod scripts;
mod sizes;
#[cfg(test)]
mod tests;

pub use generated::make_scene;
pub use scene::{Scene, read_scene};
pub use scene_table::SceneFault;
