// The epochs of a card's interfaces.
ghost use Rattle.std.specs.Prelude.{◌≡◌, ◌<◌, ◌+◌, ◌-◌, ◌^◌, if◌then◌else◌};
ghost use Rattle.piv_model.specs.declared.kinds.Interface.{Interface};
ghost use Rattle.piv_rules.specs.Connections.{same_side};

use piv_model::Interface;

// How many resets of each interface, and losses of power, there were.
#[derive(Clone, Copy, Debug)]
pub(crate) struct Epochs {
    contact: u32,
    contactless: u32,
}

impl Epochs {
    ghost use Rattle.card_cell.specs.Epochs.{epoch_in};

    pub(crate) fn new() -> Epochs
        ensures { (i : Interface) → epoch_in result i ≡ 0 }
    {
        Epochs {
            contact: 0,
            contactless: 0,
        }
    }

    // That of an interface.
    pub(crate) fn of(&self, interface: Interface) -> u32
        ensures { result ≡ epoch_in self.now interface }
    {
        match interface {
            Interface::Contact => self.contact,
            Interface::Contactless => self.contactless,
        }
    }

    // After a reset of an interface.
    pub(crate) fn reset(&mut self, interface: Interface)
        requires { epoch_in self.old interface < 2 ^ 32 - 1 }
        ensures { (i : Interface) → epoch_in self.new i
            ≡ epoch_in self.old i + (if same_side i interface then 1 else 0) }
    {
        match interface {
            Interface::Contact => self.contact += 1,
            Interface::Contactless => self.contactless += 1,
        }
    }

    // After a loss of power.
    pub(crate) fn cut(&mut self)
        requires { (i : Interface) → epoch_in self.old i < 2 ^ 32 - 1 }
        ensures { (i : Interface) → epoch_in self.new i ≡ epoch_in self.old i + 1 }
    {
        self.contact += 1;
        self.contactless += 1;
    }
}
