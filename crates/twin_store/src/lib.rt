//! A store that keeps each object of a card in a twin record.
#![tactic(auto)]

mod form;
mod laying;
mod layout;
mod records;

pub use form::Twins;

/// The store that keeps each object in a twin record.
pub type TwinStore<N> = card_image::Image<N, Twins>;
