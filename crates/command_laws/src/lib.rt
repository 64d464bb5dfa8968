//! Laws of the commands: which word each is answered, by what it is entitled, what it spends, and what lasts of it.
#![tactic(auto)]

mod laws;

pub use laws::{
    commands_are_entitled, spends_are_limited, what_is_acknowledged_lasts, words_have_their_causes,
};
