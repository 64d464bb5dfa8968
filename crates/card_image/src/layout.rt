//! The sizes of a card's memory on a device.

/// The bytes that a device has at least.
pub const DEVICE: usize = 1_114_112;

/// The bytes of the header, behind which the objects stand.
pub const HEADER: usize = 256;

// A key with its algorithm.
pub(crate) const KEY: usize = 33;
