//! The cards of a scene: read, tested against their limits, and made.
#![tactic(auto)]

mod card;
mod cards;
mod limit;
mod losses;
mod made;
mod objects;
mod parts;

pub use card::RawCard;
pub use cards::{Cards, read_cards};
pub use limit::cards_limit;
pub use made::{SceneCard, copy_plan, make_cards};
pub use objects::{RawObject, RawValue};
pub use parts::RawParts;
