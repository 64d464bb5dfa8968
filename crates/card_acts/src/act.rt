// What is asked of a card.
use piv_model::Interface;

/// One act on a card.
#[derive(Clone, Copy, Debug)]
pub enum Act<'a> {
    /// A connection is opened, which others on its interface may share.
    Connect { interface: Interface, shared: bool },
    /// Connection `c` is closed.
    Disconnect { c: u32 },
    /// The bytes of an APDU, at most 512, on connection `c`, by a caller who knows this epoch of its interface.
    Exchange { c: u32, epoch: u32, bytes: &'a [u8] },
    /// An interface is reset.
    Reset { interface: Interface },
    /// The power is cut.
    Cut,
    /// The power is switched on.
    Power,
}
