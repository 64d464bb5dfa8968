//! What the definitions of the card owe to a reader: laws over every history, or every legal one.
#![tactic(auto)]

mod laws;

pub use laws::{
    losses_are_few, memories_are_sound, only_reads_and_keys_give_data, recovery_keeps_a_prefix,
};
