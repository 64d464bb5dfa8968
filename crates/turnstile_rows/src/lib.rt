//! Turnstiles in a row, and callers with a pass for each of them.
#![tactic(auto)]

mod closing;
mod dealing;
mod gathering;
mod standing;

pub use closing::close_all;
pub use dealing::{deal, deal_all};
pub use gathering::{gather, gather_all};
pub use standing::{Stood, stand};
