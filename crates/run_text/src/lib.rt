//! The text of a run of a scene, and the summary of a run of the generated one.
#![tactic(auto)]

mod run;
mod summary;
#[cfg(test)]
mod tests;

pub use run::print_run;
pub use summary::print_summary;
