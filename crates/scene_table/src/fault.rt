// Why a scene is refused.
use piv_model::{Limit, Where};

/// Why a scene is refused.
#[derive(Clone, Copy, PartialEq, Eq, Debug)]
pub enum SceneFault {
    /// It is wrong at this place first.
    Bad(Where),
    /// It passes this limit first.
    TooLarge(Limit),
    /// No memory was left.
    NoMemory,
}
