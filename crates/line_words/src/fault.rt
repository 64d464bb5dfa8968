// Why a line is not read.
use std::alloc::AllocError;
use thiserror::Error;

/// Why a text gives nothing.
#[derive(Clone, Copy, Debug, PartialEq, Eq, Error)]
pub enum LineFault {
    /// It has not the form.
    #[error("Malformed")]
    Malformed,
    /// No memory was left.
    #[error("NoMemory")]
    NoMemory,
}

impl From<AllocError> for LineFault {
    ghost use Rattle.std.specs.Prelude.{◌≡◌};
    ghost use Rattle.line_words.specs.declared.fault.LineFault.TheVariants.{NoMemory};

    ghost from_gives = { λ _ e. e ≡ NoMemory };

    fn from(_fault: AllocError) -> LineFault {
        LineFault::NoMemory
    }
}
