// How the program ends.
ghost use Rattle.std.specs.Prelude.{◌≡◌, option_map};
ghost use Rattle.piv_cli.specs.Hints.{hint_text};
ghost use Rattle.piv_cli.specs.Statuses.{hint_of, name_of, number_of};

use crate::hint::{Hint, of_limit, of_place};
use piv_model::{Limit, Where};

/// How the program ends.
#[derive(Clone, Copy, Debug, PartialEq, Eq)]
pub enum Status {
    /// All was done.
    Done,
    /// The words are no command.
    Usage,
    /// The input is no scene, and here is where.
    BadScene { at: Where },
    /// The input is larger than a limit.
    TooLarge { what: Limit },
    /// The source failed.
    ReadFault,
    /// The sink failed.
    WriteFault,
    /// The device lost power while the card was personalised.
    DeviceFault,
    /// A growth was refused for want of memory.
    NoMemory,
}

impl Status {
    /// The number that the program ends with.
    pub fn number(self) -> u8
        ensures { result ≡ number_of self }
    {
        match self {
            Status::Done => 0,
            Status::Usage => 2,
            Status::BadScene { .. } => 3,
            Status::TooLarge { .. } => 4,
            Status::ReadFault => 5,
            Status::WriteFault => 6,
            Status::DeviceFault => 7,
            Status::NoMemory => 8,
        }
    }

    /// Its name, which the program says on standard error where it isn't Done.
    pub fn name(&self) -> &'static str
        ensures { result.now ≡ name_of self.now }
    {
        match self {
            Status::Done => "Done",
            Status::Usage => "Usage",
            Status::BadScene { .. } => "BadScene",
            Status::TooLarge { .. } => "TooLarge",
            Status::ReadFault => "ReadFault",
            Status::WriteFault => "WriteFault",
            Status::DeviceFault => "DeviceFault",
            Status::NoMemory => "NoMemory",
        }
    }

    /// What the second line on standard error says, if there is one: where or what to do, for a person.
    pub fn hint(self) -> Option<Hint>
        ensures { option_map hint_text result ≡ hint_of self }
    {
        match self {
            Status::Usage => Some(Hint::Text("see piv --help")),
            Status::BadScene { at } => Some(of_place(at)),
            Status::TooLarge { what } => Some(of_limit(what)),
            Status::DeviceFault => Some(Hint::Text(
                "the device lost power before the card stood on it",
            )),
            Status::Done | Status::ReadFault | Status::WriteFault | Status::NoMemory => None,
        }
    }
}
