//! Scripts and histories as text: the lines of a script, printed answers and histories, and a history read back.
#![tactic(auto)]

mod entry_reading;
mod entry_words;
mod history_reading;
#[cfg(test)]
mod tests;

pub use entry_text::{print_answer, print_history};
pub use history_reading::{push_line, read_history};
pub use line_words::{Bytes, LineFault, Text};
pub use script_line::{Line, Script, read_line};
