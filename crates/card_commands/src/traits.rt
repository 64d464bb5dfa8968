// What the meaning of a command depends on.
ghost use Rattle.std.specs.Prelude.{◌≡◌, IsTrue, IfSome};
ghost use Rattle.piv_model.specs.Base.{profile_of};
ghost use Rattle.piv_model.specs.Commands.{command_of};
ghost use Rattle.piv_rules.specs.Asks.{select_ask};
ghost use Rattle.piv_rules.specs.Lent.{ask_of};
ghost use Rattle.card_commands.specs.Asking.{profile_by};

use crate::execution::{SELECT, asked_by};
use crate::select::select_asked;
use piv_model::{Command, KeyId, RefId, Store};
use piv_rules::{Asked, Asks};

/// What no command changes of a card, as far as the meaning of a command depends on it: a reader of all its commands.
#[derive(Clone, Copy, Debug)]
pub struct Traits {
    pub has_global: bool,
    /// The identifier of the administration key's algorithm, 08, 0A or 0C.
    pub admin_algorithm: u8,
    /// That of the card authentication key's.
    pub card_algorithm: u8,
}

// What a SELECT asks.
fn selecting(command: Command<'_>) -> Asked<'_>
    ensures { ask_of result ≡ select_ask (command_of command.entry) }
{
    match select_asked(command) {
        Ok(application) => Asked::Select(application),
        Err(word) => Asked::Refused(word),
    }
}

impl Asks for Traits {
    ghost profile = { λ t. profile_by t };

    #[tactic(auto, unfolding(piv_rules::specs::Asks::ask))]
    fn asked<'a>(&self, command: Command<'a>) -> Asked<'a> {
        match command.ins {
            SELECT => selecting(command),
            _ => asked_by(command, self),
        }
    }
}

// The traits of a card.
pub(crate) fn traits_of<S: Store>(store: &S) -> Traits
    requires on { IsTrue (S.state store.now).power.on }
    ensures { IfSome (S.state store.now).mem (λ m. profile_by result ≡ profile_of m) }
{
    Traits {
        has_global: store.has(RefId::GlobalPin),
        admin_algorithm: store.algorithm(KeyId::AdminKey),
        card_algorithm: store.algorithm(KeyId::CardAuth),
    }
}
