//! The data fields of the card's commands and of the client's calls, read in place.
#![tactic(auto)]

mod connections;
mod elements;
mod login_fields;
mod logins;
mod malformed;
mod objects;
mod put;
mod templates;

pub use connections::connection_description;
pub use login_fields::authenticators;
pub use logins::{Authenticator, Authenticators};
pub use malformed::Malformed;
pub use objects::{discovery, tag_list};
pub use put::{PutFields, put_fields};
pub use templates::auth_template;

#[cfg(test)]
mod tests;
