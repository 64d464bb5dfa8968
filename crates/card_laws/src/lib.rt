//! Laws of a card that stands for its history: what one record more makes of connections, frames, memory and plans.
#![tactic(auto)]

mod laws;

pub use laws::{
    cards_stand_for_one_record_more, connections_are_apart, connections_are_numbered,
    frames_follow_the_chain, losses_are_whole, one_record_more, plans_go_on,
};
