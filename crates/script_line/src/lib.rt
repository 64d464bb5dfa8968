//! The lines of a script.
#![tactic(auto)]

mod line;
mod reading;
mod script;
#[cfg(test)]
mod tests;

pub use line::Line;
pub use reading::read_line;
pub use script::Script;
