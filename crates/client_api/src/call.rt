// A call as it is made, step by step.
use crate::handle::CardHandle;
use crate::port::Port;
use crate::send::send;
use crate::state::State;
use crate::take::take;
use piv_model::ApiAnswer;
use std::marker::Model;
use std::mem;

/// What a step gives.
#[derive(Drop)]
pub enum Step {
    /// The call has a further turn.
    More,
    /// The call's answer, and its handle with the newest epoch: None where a connect failed.
    Done {
        answer: ApiAnswer,
        handle: Option<CardHandle>,
    },
}

/// A call of the API. It reserves what it needs when it is made.
#[derive(Drop)]
pub struct ApiCall {
    state: State,
}

impl Model for ApiCall {
    ghost use Rattle.client_api.specs.Machine.{Going};
    ghost use Rattle.client_api.specs.States.{going_of, IsSound};

    ghost Value = { Going };

    ghost view = { λ call. going_of call.state };

    ghost invariant = { λ call. IsSound call.state };
}

impl ApiCall {
    ghost use Rattle.std.specs.Prelude.{◌≡◌, ◌≤◌, ◌<◌, ℕ};
    ghost use Rattle.client_api.specs.Calls.{Call, Replies};
    ghost use Rattle.client_api.specs.Steps.{IsOn, IsAt, Stepped, GivesOn, HandsBack, given_at, left};
    ghost use Rattle.client_api.specs.States.{going_of, IsSound};

    /// The next step of the call, which wasn't Done: one turn, or the answer of a call that makes none. It takes no
    /// memory.
    pub fn step<P: Port>(&mut self, port: &mut P) -> Step
        requires { IsOn (P.cards port.old) self.old }
        ensures stepped { (call : Call) (replies : Replies) → IsAt self.old call replies →
            Stepped (P.stands port.old) (P.stands port.new) (P.seen port.new) (P.turns port.new)
            call replies result self.new }
        ensures on { (result ≡ Step.More → IsOn (P.cards port.old) self.new) × GivesOn (P.cards port.old) result }
        ensures handle { HandsBack self.old result }
        ensures falls { result ≡ Step.More → left self.new < left self.old }
        ensures cards { P.cards port.new ≡ P.cards port.old }
        ensures bases { P.bases port.new ≡ P.bases port.old }
        ensures turns { (k : ℕ) → P.turns port.new k ≡ P.turns port.old k }
        ensures seen { (k : ℕ) → P.seen port.old k ≤ P.seen port.new k }
    {
        let state = mem::replace(&mut self.state, State::Over);
        if state.is_ended() {
            return self.give(state);
        }
        let answer = send(&state, port);
        let state = take(state, answer);
        self.give(state)
    }

    pub(crate) fn of(state: State) -> ApiCall
        requires { IsSound state }
        ensures { result ≡ going_of state }
    {
        ApiCall { state }
    }

    fn give(&mut self, state: State) -> Step
        requires { IsSound state }
        ensures gives { result ≡ given_at (going_of state) }
        ensures kept { result ≡ Step.More → self.new ≡ going_of state }
        ensures on { (cards : ℕ) → IsOn cards (going_of state) →
            (result ≡ Step.More → IsOn cards self.new) × GivesOn cards result }
    {
        match state {
            State::Ended { answer, handle } => Step::Done { answer, handle },
            state => {
                self.state = state;
                Step::More
            }
        }
    }
}
