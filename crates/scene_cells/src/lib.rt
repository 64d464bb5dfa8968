//! The cards of a scene on devices, each in a cell of its own, and the devices in their places again.
#![tactic(auto)]

mod bases;
mod card;
mod fault;
mod first;
mod handing;
mod raising;
mod turns;

pub use bases::cell_base;
pub use card::SceneCell;
pub use fault::RunFault;
pub use handing::hand_back;
pub use raising::{Raised, raise};
pub use turns::scene_turns;
