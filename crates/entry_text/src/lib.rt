//! The texts of answers and of histories, printed.
#![tactic(auto)]

mod answer_parts;
mod entry_parts;
mod printing;
mod short_text;
#[cfg(test)]
mod tests;

pub use printing::{print_answer, print_history, print_number};
