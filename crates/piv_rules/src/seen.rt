// A situation as a plain program is given it, and the conditions of the table's lines in it.
ghost use Rattle.std.specs.Prelude.{◌≡◌, ◌≤◌, length, None, false};
ghost use Rattle.piv_model.specs.Memory.{fits, reference, stored};
ghost use Rattle.piv_rules.specs.Answers.{Situation, holds, rule_of, status, is_wrong, conditions, answer_to};
ghost use Rattle.piv_rules.specs.Lent.{ask_of, counter_of, AreFew, IsSeen};

use crate::asked::Asked;
use crate::lookback::Pending;
use crate::table::{Conditions, word_of};
use access_rules::{Status, Verdict, decide};
use piv_model::limits::{BLOCK, LONGEST_OBJECT};
use piv_model::{Interface, ObjectId, RefId, Rule};

/// A reference's tries and its secret.
#[derive(Clone, Copy, Debug)]
pub struct Counter<'a> {
    pub tries: u8,
    pub secret: &'a [u8],
}

/// What an answer depends on: a connection's side, application, logins and pending block, and the
/// card's memory.
#[derive(Clone, Copy, Debug)]
pub struct Seen<'a> {
    pub interface: Interface,
    pub piv: bool,
    pub pin: bool,
    pub global: bool,
    pub admin: bool,
    pub pending: Pending,
    /// The Discovery Object is present and says that the Global PIN counts.
    pub global_counts: bool,
    pub pin_counter: Counter<'a>,
    pub puk_counter: Counter<'a>,
    pub global_counter: Counter<'a>,
    /// The objects at their places; an empty one is absent.
    pub objects: &'a [&'a [u8]],
    /// The blocks of all objects present.
    pub used: u64,
    pub budget: u64,
}

// An access rule holds.
fn is_permitted(seen: &Seen<'_>, rule: Rule) -> bool
    ensures { (s : Situation) → IsSeen seen.now s → result ≡ holds s rule }
{
    if rule == Rule::Response {
        return false;
    }
    let status = Status {
        piv: seen.piv,
        pin: seen.pin,
        global: seen.global,
        admin: seen.admin,
    };
    match decide(rule, seen.interface, &status, seen.global_counts) {
        Verdict::Permit => true,
        Verdict::Deny { .. } => false,
    }
}

// A reference's counter.
fn counter_at<'a>(seen: &Seen<'a>, r: RefId) -> Counter<'a>
    requires { AreFew seen.now }
    ensures few { result.tries ≤ 15 }
    ensures counter { (s : Situation) → IsSeen seen.now s
        → counter_of result (reference s.memory r) }
{
    match r {
        RefId::Pin => seen.pin_counter,
        RefId::Puk => seen.puk_counter,
        RefId::GlobalPin => seen.global_counter,
    }
}

// The number of bytes of an object.
fn stored_length(seen: &Seen<'_>, id: ObjectId) -> usize
    ensures { (s : Situation) → IsSeen seen.now s → result ≡ length (stored s.memory id) }
{
    match seen.objects.get(id.place() as usize) {
        Some(object) => object.len(),
        None => 0,
    }
}

// There is room for a value.
#[tactic(auto, unfolding(piv_model::specs::Memory::fits))]
fn has_room(seen: &Seen<'_>, value: &[u8]) -> bool
    ensures { (s : Situation) → IsSeen seen.now s → result ≡ fits s.memory value.now }
{
    if value.len() > LONGEST_OBJECT {
        return false;
    }
    let blocks = (value.len() as u64).div_ceil(BLOCK as u64);
    seen.used <= seen.budget && blocks <= seen.budget - seen.used
}

// The conditions of a command that has none of its own.
fn common(piv: bool, permitted: bool, wrong: bool) -> Conditions
    ensures { result ≡ record {
      piv = piv;
      refusal = None;
      permitted = permitted;
      lacks_pending = false;
      wrong = wrong;
      blocked = false;
      differs = false;
      unknown_login = false;
      absent = false;
      no_room = false;
      tries = 0;
    } }
{
    Conditions {
        piv,
        refusal: None,
        permitted,
        lacks_pending: false,
        wrong,
        blocked: false,
        differs: false,
        unknown_login: false,
        absent: false,
        no_room: false,
        tries: 0,
    }
}

/// The conditions of the table's lines for an ask whose access rule is `rule`. Whether the ask is a
/// wrong response to what is pending is told, since the cipher isn't here.
pub fn conditions_of(seen: &Seen<'_>, asked: &Asked<'_>, rule: Rule, wrong: bool) -> Conditions
    requires { AreFew seen.now }
    ensures few { result.tries ≤ 15 }
    ensures lines { (s : Situation) → IsSeen seen.now s
        → rule ≡ rule_of s.interface (ask_of asked.now)
        → wrong ≡ is_wrong s.memory.admin s.channel.pending (ask_of asked.now)
        → result ≡ conditions s (ask_of asked.now) }
{
    let conditions = common(seen.piv, is_permitted(seen, rule), wrong);
    match asked {
        Asked::Refused(word) => Conditions {
            refusal: Some(*word),
            ..conditions
        },
        Asked::Compare(r, candidate, _) => {
            let counter = counter_at(seen, *r);
            Conditions {
                blocked: counter.tries == 0,
                differs: candidate.as_slice() != counter.secret,
                tries: counter.tries,
                ..conditions
            }
        }
        Asked::Query(r) => Conditions {
            unknown_login: !is_logged_in(seen, *r),
            tries: counter_at(seen, *r).tries,
            ..conditions
        },
        Asked::External(_) => Conditions {
            lacks_pending: !matches!(seen.pending, Pending::Challenge(_)),
            ..conditions
        },
        Asked::Mutual(_, _) => Conditions {
            lacks_pending: !matches!(seen.pending, Pending::Witness(_)),
            ..conditions
        },
        Asked::Get(id) => Conditions {
            absent: stored_length(seen, *id) == 0,
            ..conditions
        },
        Asked::Put(_, value) => Conditions {
            no_room: !has_room(seen, value),
            ..conditions
        },
        Asked::Select(_)
        | Asked::Logout(_)
        | Asked::Internal(_)
        | Asked::AskChallenge
        | Asked::AskWitness => conditions,
    }
}

// The login of a reference is in force; the PUK has none.
fn is_logged_in(seen: &Seen<'_>, r: RefId) -> bool
    ensures { (s : Situation) → IsSeen seen.now s → result ≡ status s.channel r }
{
    match r {
        RefId::Pin => seen.pin,
        RefId::GlobalPin => seen.global,
        RefId::Puk => false,
    }
}

/// The status word of an ask in a situation, SELECT apart: the first line of the table that fits.
#[tactic(auto, using(crate::proofs::TableLaws::table_words))]
pub fn answer_word(seen: &Seen<'_>, asked: &Asked<'_>, rule: Rule, wrong: bool) -> u16
    requires { AreFew seen.now }
    ensures { (s : Situation) → IsSeen seen.now s
        → rule ≡ rule_of s.interface (ask_of asked.now)
        → wrong ≡ is_wrong s.memory.admin s.channel.pending (ask_of asked.now)
        → result ≡ (answer_to s (ask_of asked.now)).word }
{
    word_of(&conditions_of(seen, asked, rule, wrong))
}
