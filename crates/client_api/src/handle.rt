// Handles of open connections.
use piv_model::Interface;
use std::marker::Model;

/// An open connection, as its caller knows it: its card, its number on that card, the last epoch of its interface that
/// the caller was told, and its interface. Each call takes its handle and hands one back.
#[derive(Drop)]
pub struct CardHandle {
    card: usize,
    connection: u32,
    epoch: u32,
    interface: Interface,
}

impl Model for CardHandle {
    ghost use Rattle.client_api.specs.Calls.{Handle};

    ghost Value = { Handle };

    ghost view = { λ h. record {
      card = h.card;
      connection = h.connection;
      epoch = h.epoch;
      interface = h.interface;
    } };
}

impl CardHandle {
    ghost use Rattle.std.specs.Prelude.{◌≡◌, ℕ, ◌<◌};

    // A connection that was opened.
    pub(crate) fn new(card: usize, connection: u32, epoch: u32, interface: Interface) -> CardHandle
        ensures { result ≡ record {
          card = card;
          connection = connection;
          epoch = epoch;
          interface = interface;
        } }
    {
        CardHandle {
            card,
            connection,
            epoch,
            interface,
        }
    }

    // The same handle once more.
    pub(crate) fn same(&self) -> CardHandle
        ensures { result ≡ self.now }
    {
        CardHandle::new(self.card, self.connection, self.epoch, self.interface)
    }

    // The handle with a newer epoch.
    pub(crate) fn with_epoch(&self, epoch: u32) -> CardHandle
        ensures { result ≡ record self.now { epoch = epoch } }
    {
        CardHandle::new(self.card, self.connection, epoch, self.interface)
    }

    /// The place of its card among the port's cards.
    pub fn card(&self) -> usize
        ensures { result ≡ self.now.card }
    {
        self.card
    }

    /// The number of the connection on its card.
    pub fn connection(&self) -> u32
        ensures { result ≡ self.now.connection }
    {
        self.connection
    }

    /// The last epoch of its interface that the caller was told.
    pub fn epoch(&self) -> u32
        ensures { result ≡ self.now.epoch }
    {
        self.epoch
    }

    /// The interface.
    pub fn interface(&self) -> Interface
        ensures { result ≡ self.now.interface }
    {
        self.interface
    }
}
