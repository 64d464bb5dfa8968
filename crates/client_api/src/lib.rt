//! The client application programming interface of a PIV card (SP 800-73-4 part 3), each call as a machine that makes
//! one turn a step.
#![tactic(auto)]

mod answers;
#[cfg(test)]
mod answers_tests;
mod call;
mod commands;
mod handle;
mod line_laws;
#[cfg(test)]
mod listed;
mod make;
mod others;
mod player;
#[cfg(test)]
mod player_tests;
mod port;
mod prepare;
mod readers;
mod send;
mod state;
mod take;
#[cfg(test)]
mod tests;
mod told;
mod whole;

pub use call::{ApiCall, Step};
pub use handle::CardHandle;
pub use line_laws::{a_line_has_one_call, calls_and_lines_end, calls_stay_on_cards};
pub use make::Refused;
pub use others::{establish_secure_messaging, generate_key_pair, middleware_version};
pub use player::Player;
pub use port::Port;
pub use readers::Readers;
pub use whole::run;
