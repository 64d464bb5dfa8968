// What a card answers.
use piv_model::{ReplyBytes, Took};

/// What an act is answered.
#[derive(Drop)]
pub enum Answer {
    /// The card has had all its turns, and the act changed nothing.
    Full,
    /// The number of the new connection, and the epoch of its interface.
    Connected { c: u32, epoch: u32 },
    /// The connection was closed.
    Disconnected,
    /// The data and the status word of a reply.
    Reply { body: ReplyBytes, sw: u16 },
    /// The card was off, or lost its power; the epoch of the connection's interface.
    Mute { epoch: u32 },
    /// A reset or a loss of power came since; the epoch of the connection's interface.
    Stale { epoch: u32 },
    /// The connection isn't open.
    NoConnection,
    /// Another connection is open on the interface, and one of the two is exclusive.
    Locked,
    /// Sixteen connections are open.
    NoChannel,
    /// The power is off.
    Off,
    /// The power is on.
    On,
    /// The interface was reset.
    WasReset,
    /// The power was cut.
    WasCut,
    /// The power was switched on; how far the command had come that lost it.
    Up { took: Took },
}
