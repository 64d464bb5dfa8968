// A rule, decided for a connection.
ghost use Rattle.std.specs.Prelude.{◌≢◌, ◌≡◌};
ghost use Rattle.piv_model.specs.declared.kinds.Rule.TheVariants.{Response};
ghost use Rattle.access_rules.specs.Permits.{permits, verdict_of};

use piv_model::status_words::SECURITY_STATUS_NOT_SATISFIED;
use piv_model::{Interface, Rule};

/// The security status of one connection: whether PIV is selected, and its logins by the PIN of the
/// application, by the Global PIN and by the card management key.
#[derive(Clone, Copy, PartialEq, Eq, Debug)]
pub struct Status {
    pub piv: bool,
    pub pin: bool,
    pub global: bool,
    pub admin: bool,
}

/// What a rule says.
#[derive(Clone, Copy, PartialEq, Eq, Debug)]
pub enum Verdict {
    Permit,
    /// The rule that denies, and the status word.
    Deny { rule: Rule, sw: u16 },
}

/// Whether a rule holds on a connection. `global_counts` says whether a login by the Global PIN opens
/// what asks for a PIN. A wrong response isn't decided here: the rule isn't Response. What is denied
/// has the word 69 82.
pub fn decide(rule: Rule, interface: Interface, status: &Status, global_counts: bool) -> Verdict
    requires { rule ≢ Response }
    ensures { result ≡ verdict_of rule (permits rule interface status.now global_counts) }
{
    let contact = interface == Interface::Contact;
    let holds = match rule {
        Rule::Always => true,
        Rule::Pin => contact && (status.pin || status.global && global_counts),
        Rule::Admin => contact && status.admin,
        Rule::ContactUse => contact,
        Rule::Never | Rule::Response => false,
    };
    if holds {
        Verdict::Permit
    } else {
        Verdict::Deny {
            rule,
            sw: SECURITY_STATUS_NOT_SATISFIED,
        }
    }
}
