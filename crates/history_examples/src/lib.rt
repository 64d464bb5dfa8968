//! Worked examples that pin what no law of the definitions can: numbers at their limits, and refusals where two of them meet.
#![tactic(auto)]

mod examples;
mod plain;

pub use examples::{
    acts_are_answered_in_order, blocks_are_those_of_chacha, forms_are_exact,
    global_pins_count_by_the_policy, headers_are_known, limits_are_exact,
    memories_have_their_limits, two_refusals_meet,
};
pub use plain::{
    answers_on_the_plain_card, connections_on_the_plain_card, losses_on_the_plain_card,
    parts_and_pieces_on_the_plain_card,
};
