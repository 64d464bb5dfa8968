// Whether a history entitles a connection by an access rule, as a plain program. Entries are given
// with the newest first.
ghost use Rattle.std.specs.Prelude.{◌≡◌};
ghost use Rattle.piv_model.specs.Base.{Base, profile};
ghost use Rattle.piv_rules.specs.Answers.{global_counts, holds, situation_of};
ghost use Rattle.piv_rules.specs.Lent.{past_of};
ghost use Rattle.piv_rules.specs.Memories.{mem};

use crate::lookback::{Asks, Login, is_in_force, side_of};
use access_rules::{Status, Verdict, decide};
use piv_model::{Entry, Rule};

/// Whether a connection is entitled by a rule: on contact, by the logins in force. `counts` says
/// whether the Global PIN counts after these entries.
#[tactic(auto, unfolding(crate::specs::Channels::channel))]
pub fn is_entitled<A: Asks>(
    asks: &A,
    entries: &[Entry<'_>],
    c: u32,
    rule: Rule,
    counts: bool,
) -> bool
    ensures { (B : Base) → A.profile asks.now ≡ profile B
        → global_counts (mem B (past_of entries.now)) ≡ counts
        → result ≡ holds (situation_of B (past_of entries.now) c) rule }
{
    if rule == Rule::Response {
        return false;
    }
    let status = Status {
        piv: true,
        pin: is_in_force(asks, entries, c, Login::Pin),
        global: is_in_force(asks, entries, c, Login::Global),
        admin: is_in_force(asks, entries, c, Login::Admin),
    };
    match decide(rule, side_of(entries, c), &status, counts) {
        Verdict::Permit => true,
        Verdict::Deny { .. } => false,
    }
}
