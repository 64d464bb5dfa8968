// A call from its first step to its last.
ghost use Rattle.std.specs.Prelude.{◌≡◌, ◌≤◌, ◌<◌, ℕ, [], IfSome};
ghost use Rattle.client_api.specs.Calls.{Call, Replies};
ghost use Rattle.client_api.specs.Steps.{IsOn, IsAt};
ghost use Rattle.client_api.specs.Whole.{IsMadeOn};

use crate::call::{ApiCall, Step};
use crate::handle::CardHandle;
use crate::port::Port;
use piv_model::ApiAnswer;

/// Steps a call to its end: its answer, and its handle with the newest epoch. Its own records are those of its turns.
pub fn run<P: Port>(call: ApiCall, port: &mut P) -> (ApiAnswer, Option<CardHandle>)
    requires { IsOn (P.cards port.old) call }
    ensures made { (made : Call) → IsAt call made [] → (replies : Replies) × IsMadeOn (P.stands port.old)
        (P.stands port.new) (P.seen port.new) (P.turns port.new) made result.0 result.1 replies }
    ensures on { IfSome result.1 (λ h. h.card < P.cards port.old) }
    ensures cards { P.cards port.new ≡ P.cards port.old }
    ensures bases { P.bases port.new ≡ P.bases port.old }
    ensures turns { (k : ℕ) → P.turns port.new k ≡ P.turns port.old k }
    ensures seen { (k : ℕ) → P.seen port.old k ≤ P.seen port.new k }
{
    let mut call = call;
    loop {
        match call.step(port) {
            Step::More => (),
            Step::Done { answer, handle } => return (answer, handle),
        }
    }
}
