// A connection's application, logins and pending block.
ghost use Rattle.piv_model.specs.declared.kinds.RefId.TheVariants.{Pin, Puk, GlobalPin};

use access_rules::Status;
use auth_protocol::Exchange;
use piv_model::RefId;

/// What a command sees of its connection: whether PIV is selected, the logins in force, and the pending block.
#[derive(Clone, Copy, Debug)]
pub struct Conn {
    pub(crate) piv: bool,
    pub(crate) pin: bool,
    pub(crate) global: bool,
    pub(crate) admin: bool,
    pub(crate) exchange: Exchange,
}

impl Conn {
    ghost use Rattle.std.specs.Prelude.{◌≡◌};
    ghost use Rattle.piv_rules.specs.Channels.{fresh};
    ghost use Rattle.card_commands.specs.Connections.{channel_of, status_of, status_on, with_status};

    /// As a connection begins, and after a reset of its interface or a loss of power.
    pub fn new() -> Conn
        ensures { channel_of result ≡ fresh }
    {
        Conn {
            piv: false,
            pin: false,
            global: false,
            admin: false,
            exchange: Exchange::new(),
        }
    }

    /// Whether PIV is selected, and the logins.
    pub fn status(&self) -> Status
        ensures { result ≡ status_of (channel_of self.now) }
    {
        Status {
            piv: self.piv,
            pin: self.pin,
            global: self.global,
            admin: self.admin,
        }
    }

    // The login by a reference; the PUK gives none.
    pub(crate) fn has_login(&self, r: RefId) -> bool
        ensures { result ≡ status_on self.now r }
    {
        match r {
            RefId::Pin => self.pin,
            RefId::GlobalPin => self.global,
            RefId::Puk => false,
        }
    }

    // Sets the login by a reference, where there is something to set.
    pub(crate) fn set(&mut self, r: RefId, status: Option<bool>)
        ensures { self.new ≡ with_status r status self.old }
    {
        match r {
            RefId::Pin => self.pin = status.unwrap_or(self.pin),
            RefId::GlobalPin => self.global = status.unwrap_or(self.global),
            RefId::Puk => {}
        }
    }
}
