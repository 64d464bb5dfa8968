//! The commands of the card, over any store: SELECT, GET DATA, PUT DATA, VERIFY, CHANGE REFERENCE DATA,
//! RESET RETRY COUNTER and GENERAL AUTHENTICATE (SP 800-73-4 part 2), and what one did that lost power.
#![tactic(auto)]

mod access;
mod change_reference_data;
mod comparison;
mod connection;
mod executed;
mod execution;
mod general_authenticate;
mod get_data;
mod laws;
mod put_data;
mod recovery;
mod reset_retry_counter;
mod select;
mod traits;
mod verify;

pub use connection::Conn;
pub use executed::{Broken, Executed};
pub use execution::execute;
pub use laws::{losses_are_told, words_are_those_of_the_table};
pub use recovery::took;
pub use traits::Traits;
