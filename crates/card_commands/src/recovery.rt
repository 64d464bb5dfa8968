// What a command that lost power did.
ghost use Rattle.std.specs.Prelude.{◌≡◌, ◌+◌, ◌==◌, ◌&&◌, is_some, IsTrue, IfSome, if◌then◌else◌};
ghost use Rattle.piv_model.specs.Commands.{command_of};
ghost use Rattle.piv_model.specs.Memory.{has, reference};
ghost use Rattle.piv_rules.specs.Asks.{Put, Compare};
ghost use Rattle.piv_rules.specs.Lent.{ask_of, purpose_of};
ghost use Rattle.card_commands.specs.Asking.{IsMeet};
ghost use Rattle.card_commands.specs.Executes.{asked};
ghost use Rattle.card_commands.specs.Tells.{tells, keeps_value};

use crate::executed::Broken;
use crate::execution::{SELECT, asked_by};
use crate::traits::{Traits, traits_of};
use piv_model::{Command, ObjectId, RefId, Store, Took};
use piv_rules::{Asked, Purpose};

// Whether a match leaves the value that is compared.
fn keeps(candidate: &[u8; 8], purpose: Purpose) -> bool
    ensures { result ≡ keeps_value candidate.now (purpose_of purpose) }
{
    match purpose {
        Purpose::Verify => true,
        Purpose::Change(new) => *candidate == new,
        Purpose::Unblock(_) => false,
    }
}

// After a loss in the writes that spend a try.
fn spent<S: Store>(store: &S, r: RefId, before: u8) -> Took
    requires on { IsTrue (S.state store.now).power.on }
    requires has { IfSome (S.state store.now).mem (λ m. IsTrue (has m r)) }
    ensures { IfSome (S.state store.now).mem (λ m. result ≡ (if (reference m r).tries == before then Took.Nothing else Took.Spent)) }
{
    if store.tries(r) == before {
        Took::Nothing
    } else {
        Took::Spent
    }
}

// After a loss in the writes that fill the counter.
fn filled<S: Store>(store: &S, r: RefId, before: u8, keeps: bool) -> Took
    requires on { IsTrue (S.state store.now).power.on }
    requires has { IfSome (S.state store.now).mem (λ m. IsTrue (has m r)) }
    ensures { IfSome (S.state store.now).mem (λ m. result ≡ (if (reference m r).tries + 1 == before then Took.Spent
        else if ((reference m r).tries == before) && keeps then Took.Nothing else Took.Done)) }
{
    let tries = store.tries(r);
    if tries + 1 == before {
        Took::Spent
    } else if tries == before && keeps {
        Took::Nothing
    } else {
        Took::Done
    }
}

// What a comparison that lost power did.
fn compared<S: Store>(
    store: &S,
    r: RefId,
    candidate: &[u8; 8],
    purpose: Purpose,
    broken: Broken,
) -> Took
    requires on { IsTrue (S.state store.now).power.on }
    requires has { IfSome (S.state store.now).mem (λ m. IsTrue (has m r)) }
    ensures { IfSome (S.state store.now).mem (λ m.
        result ≡ tells (Compare r candidate.now (purpose_of purpose)) broken m) }
{
    match broken {
        Broken::Spending { tries } => spent(store, r, tries),
        Broken::Filling { tries } => filled(store, r, tries, keeps(candidate, purpose)),
        Broken::Putting { .. } => Took::Nothing,
    }
}

// What a put that lost power did.
fn placed<S: Store>(store: &S, id: ObjectId, value: &[u8], broken: Broken) -> Took
    requires on { IsTrue (S.state store.now).power.on }
    ensures { IfSome (S.state store.now).mem (λ m. result ≡ tells (Put id value.now) broken m) }
{
    match broken {
        Broken::Putting { same } => {
            if same || !store.same(id, value) {
                Took::Nothing
            } else {
                Took::Done
            }
        }
        Broken::Spending { .. } | Broken::Filling { .. } => Took::Nothing,
    }
}

// What a command that asks this and lost power did.
#[tactic(auto, using(crate::proofs::Dispatching::kept))]
fn took_of<S: Store>(asked: Asked<'_>, traits: &Traits, store: &S, broken: Broken) -> Took
    requires on { IsTrue (S.state store.now).power.on }
    requires meet { IsMeet traits.now.has_global asked }
    requires global { IfSome (S.state store.now).mem (λ m. traits.now.has_global ≡ is_some m.global) }
    ensures { IfSome (S.state store.now).mem (λ m. result ≡ tells (ask_of asked.entry) broken m) }
{
    let _global = traits.has_global;
    match asked {
        Asked::Compare(r, candidate, purpose) => { compared(store, r, &candidate, purpose, broken) }
        Asked::Put(id, value) => placed(store, id, value, broken),
        Asked::Refused(_) => Took::Nothing,
        Asked::Select(_) => Took::Nothing,
        Asked::Get(_) => Took::Nothing,
        Asked::Logout(_) => Took::Nothing,
        Asked::Query(_) => Took::Nothing,
        Asked::Internal(_) => Took::Nothing,
        Asked::AskChallenge => Took::Nothing,
        Asked::External(_) => Took::Nothing,
        Asked::AskWitness => Took::Nothing,
        Asked::Mutual(_, _) => Took::Nothing,
    }
}

/// What a command that lost power did, by the call that lost it and the memory that stands. It makes no write.
pub fn took<S: Store>(store: &S, command: Command<'_>, broken: Broken) -> Took
    requires on { IsTrue (S.state store.now).power.on }
    ensures { IfSome (S.state store.now).mem (λ m. result ≡ tells (asked m (command_of command.entry)) broken m) }
{
    if command.ins == SELECT {
        return Took::Nothing;
    }
    let traits = traits_of(store);
    let asked = asked_by(command, &traits);
    took_of(asked, &traits, store, broken)
}
