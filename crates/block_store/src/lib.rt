//! Objects in blocks, copied on write.
#![tactic(auto)]

mod deciding;
mod directory;
mod form;
mod laying;
mod layout;
mod putting;
mod reading;
mod writing;

pub use form::Blocks;

/// The store that keeps its objects in blocks.
pub type BlockStore<N> = card_image::Image<N, Blocks>;
