//! What a card is asked from outside, and what it answers.
#![tactic(auto)]

mod act;
mod answer;

pub use act::Act;
pub use answer::Answer;
