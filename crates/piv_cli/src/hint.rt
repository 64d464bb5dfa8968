// What a person is told beside the program's end: where, or what to do.
ghost use Rattle.std.specs.Prelude.{◌≡◌};
ghost use Rattle.piv_cli.specs.Statuses.{limit_text, place_text};
ghost use Rattle.piv_cli.specs.Hints.{hint_text};

use piv_model::{Limit, Where};
use std::fmt;

/// What a person is told: a text, or a place in a scene.
#[derive(Clone, Copy, Debug, PartialEq, Eq)]
pub enum Hint {
    Text(&'static str),
    Card(u32),
    Script(u32),
    Line(u32, u32),
}

impl fmt::Display for Hint {
    ghost use Rattle.std.specs.Prelude.{Some};
    ghost use Rattle.piv_cli.specs.Hints.{hint_text};

    ghost output = { λ h. Some (hint_text h) };

    fn fmt<W: fmt::Write>(&self, f: &mut fmt::Formatter<W>) -> fmt::Result {
        match *self {
            Hint::Text(text) => write!(f, "{text}"),
            Hint::Card(card) => write!(f, "card {card}"),
            Hint::Script(script) => write!(f, "script {script}"),
            Hint::Line(script, line) => write!(f, "script {script}, line {line}"),
        }
    }
}

/// Where a scene is wrong.
pub fn of_place(at: Where) -> Hint
    ensures { hint_text result ≡ place_text at }
{
    match at {
        Where::NotToml => Hint::Text("the bytes are no TOML"),
        Where::Cards => Hint::Text("cards"),
        Where::Card(card) => Hint::Card(card),
        Where::Script(script) => Hint::Script(script),
        Where::Line(script, line) => Hint::Line(script, line),
        Where::Schedule => Hint::Text("schedule"),
    }
}

/// Which limit was passed.
pub fn of_limit(what: Limit) -> Hint
    ensures { hint_text result ≡ limit_text what }
{
    Hint::Text(match what {
        Limit::Input => "the input has more than 8388608 bytes",
        Limit::Cards => "cards",
        Limit::Scripts => "scripts",
        Limit::Lines => "lines",
        Limit::Schedule => "schedule",
        Limit::LimitPin => "limit_pin",
        Limit::LimitPuk => "limit_puk",
        Limit::LimitGlobal => "limit_global",
        Limit::Budget => "budget",
        Limit::Losses => "losses",
        Limit::Object => "object",
        Limit::Room => "room",
        Limit::Put => "put",
        Limit::Puts => "puts",
        Limit::Crypt => "crypt",
        Limit::Apdu => "apdu",
        Limit::Login => "login",
        Limit::Aid => "aid",
    })
}
