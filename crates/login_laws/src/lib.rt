//! Laws of logins and tries, over every history or every legal one.
#![tactic(auto)]

mod laws;

pub use laws::{
    applications_change_by_select, commands_ask_what_the_card_has,
    logins_last_until_they_are_ended, tries_add_up, without_a_global_pin_nothing_is_global,
};
