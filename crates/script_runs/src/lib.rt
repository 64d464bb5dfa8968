//! Scripts as they are run beside each other: step by step in the order of a schedule, over any port.
#![tactic(auto)]

mod alone;
mod laws;
mod players;
mod scheduled;

pub use alone::play_alone;
pub use laws::{scheduled_runs_share_out, scripts_use_their_own, shares_never_fill};
pub use players::{answers_of, players_of};
pub use scheduled::play_all;
