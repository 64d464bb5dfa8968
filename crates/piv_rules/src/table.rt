// The ordered table of answers, as a plain program.
ghost use Rattle.std.specs.Prelude.{◌≡◌, ◌≤◌};
ghost use Rattle.piv_rules.specs.Answers.{word_by};

use piv_model::status_words::{
    AUTHENTICATION_METHOD_BLOCKED, INCORRECT_DATA, INSTRUCTION_NOT_SUPPORTED, NOT_ENOUGH_MEMORY,
    NOT_FOUND, SECURITY_STATUS_NOT_SATISFIED, SUCCESS, verification_failed,
};

/// What the lines of the table test of an ask in a situation, and the tries that its words tell.
#[derive(Clone, Copy, Debug)]
pub struct Conditions {
    /// The PIV application is selected.
    pub piv: bool,
    /// The word of a command of no good form.
    pub refusal: Option<u16>,
    /// The access rule holds.
    pub permitted: bool,
    pub lacks_pending: bool,
    pub wrong: bool,
    pub blocked: bool,
    pub differs: bool,
    pub unknown_login: bool,
    pub absent: bool,
    pub no_room: bool,
    /// The tries of the asked reference.
    pub tries: u8,
}

/// The status word of the first line that fits. SELECT has a line of its own and isn't asked here.
pub fn word_of(conditions: &Conditions) -> u16
    requires { conditions.now.tries ≤ 15 }
    ensures { result ≡ word_by conditions.now }
{
    if !conditions.piv {
        INSTRUCTION_NOT_SUPPORTED
    } else if let Some(word) = conditions.refusal {
        word
    } else if !conditions.permitted {
        SECURITY_STATUS_NOT_SATISFIED
    } else if conditions.lacks_pending {
        INCORRECT_DATA
    } else if conditions.wrong {
        SECURITY_STATUS_NOT_SATISFIED
    } else if conditions.blocked {
        AUTHENTICATION_METHOD_BLOCKED
    } else if conditions.differs {
        verification_failed(conditions.tries.saturating_sub(1))
    } else if conditions.unknown_login {
        verification_failed(conditions.tries)
    } else if conditions.absent {
        NOT_FOUND
    } else if conditions.no_room {
        NOT_ENOUGH_MEMORY
    } else {
        SUCCESS
    }
}
