// How a command ended.
ghost use Rattle.std.specs.Prelude.{◌≡◌, false};

/// How a command was answered.
#[derive(Clone, Copy, PartialEq, Eq, Debug)]
pub struct Executed {
    /// The status word.
    pub sw: u16,
    /// Whether the answer bears the random block that was offered.
    pub drew: bool,
}

/// The call of the store that lost power.
#[derive(Clone, Copy, PartialEq, Eq, Debug)]
pub enum Broken {
    /// A try was being spent. `tries` is the number of tries before the command.
    Spending { tries: u8 },
    /// The counter was being filled, after a match. `tries` is the number of tries before the command.
    Filling { tries: u8 },
    /// An object was being put in place. `same` says whether it held that value before the command.
    Putting { same: bool },
}

// A word, with no block.
pub(crate) fn only(sw: u16) -> Executed
    ensures { result ≡ record { sw = sw; drew = false } }
{
    Executed { sw, drew: false }
}
