//! Where bytes come from and where they go, with counts of what failed.
#![tactic(auto)]

mod memory;
mod sink;
mod source;
mod standard;
#[cfg(test)]
mod tests;

pub use memory::{MemSink, MemSource};
pub use sink::{Sink, WriteStop, write_all};
pub use source::{Failed, NoMemory, ReadStop, Source, read_all};
pub use standard::{StdSink, StdSource};
