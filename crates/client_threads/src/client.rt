// A caller of cards that stand behind turnstiles.
ghost use Rattle.std.specs.Prelude.{◌≡◌, ◌<◌, [], length, IfSome};
ghost use Rattle.turnstile_rows.specs.Rows.{ArePassesOf};
ghost use Rattle.card_acts.specs.Acts.{act_of, answer_of, IsShort};
ghost use Rattle.client_api.specs.Calls.{Call, Replies};
ghost use Rattle.client_api.specs.Steps.{IsOn, IsAt};
ghost use Rattle.client_api.specs.Whole.{IsMadeOn};
ghost use Rattle.client_threads.specs.Passes.{AreStill, StandsOwn, TurnedAt, seen_at, turns_at};

use crate::act_job::ActJob;
use crate::gates::Gates;
use crate::held_cell::HeldCell;
use card_cell::{Act, Answer};
use client_api::{ApiCall, CardHandle, Port};
use piv_model::{ApiAnswer, Store};
use std::marker::{Model, PhantomData};
use std::sync::Wait;
use turnstile::{Pass, Turnstile};

/// A caller with a pass for each card. Contracts see what its passes know.
#[derive(Drop)]
pub struct Client<'a, R: Wait, S: Store, G: Gates> {
    rt: &'a R,
    turnstiles: &'a [Turnstile<HeldCell<S>>],
    passes: Vec<Pass<HeldCell<S>>>,
    of: PhantomData<G>,
}

impl<'a, R: Wait, S: Store, G: Gates> Model for Client<'a, R, S, G> {
    ghost use Rattle.std.specs.Prelude.{List};
    ghost use Rattle.client_threads.specs.Passes.{CellPass, IsClient};

    ghost Value = { List CellPass };

    ghost view = { λ c. c.passes.items };

    ghost invariant = { λ c. IsClient G.gates G.passes c.turnstiles.now c.passes.items };
}

impl<'a, R: Wait, S: Store, G: Gates> Client<'a, R, S, G> {
    /// A client over one pass of each turnstile, in their order.
    pub fn new(
        rt: &'a R,
        turnstiles: &'a [Turnstile<HeldCell<S>>],
        passes: Vec<Pass<HeldCell<S>>>,
    ) -> Client<'a, R, S, G>
        requires gates { turnstiles.now ≡ G.gates }
        requires passes { passes.items ≡ G.passes }
        requires own { ArePassesOf G.gates G.passes }
        ensures { result ≡ passes.items }
    {
        Client {
            rt,
            turnstiles,
            passes,
            of: PhantomData,
        }
    }

    /// Hands its passes back.
    pub fn into_passes(self) -> Vec<Pass<HeldCell<S>>>
        ensures same { result.items ≡ self.entry }
        ensures own { ArePassesOf G.gates result.items }
        ensures still { AreStill G.passes result.items }
    {
        self.passes
    }

    /// Makes a call from its first step to its last: its answer, and its handle with the newest epoch. The acts of the
    /// records that it added to its passes are those that the call sends.
    pub fn run(&mut self, call: ApiCall) -> (ApiAnswer, Option<CardHandle>)
        requires on { IsOn (length G.gates) call }
        ensures made { (made : Call) → IsAt call made [] → (replies : Replies) × IsMadeOn (StandsOwn self.old)
            (StandsOwn self.new) (seen_at self.new) (turns_at G.gates) made result.0 result.1 replies }
        ensures on { IfSome result.1 (λ h. h.card < length G.gates) }
    {
        client_api::run(call, self)
    }

    // One turn at a card.
    fn take_turn(&mut self, card: usize, act: Act<'_>) -> Answer
        requires card { card < length G.gates }
        requires short { IsShort act }
        ensures { TurnedAt G.gates card (act_of act.entry) (answer_of result) self.old self.new }
    {
        let turnstile = self.turnstiles.get(card).unwrap();
        let pass = &mut self.passes[card];
        turnstile.turn(self.rt, pass, ActJob::new(act))
    }
}

impl<'a, R: Wait, S: Store, G: Gates> Port for Client<'a, R, S, G> {
    ghost use Rattle.std.specs.Prelude.{length};
    ghost use Rattle.client_threads.specs.Passes.{StandsOwn, bases_at, turns_at, seen_at};

    ghost cards = { λ c. length G.gates };

    ghost bases = { λ c. bases_at G.gates };

    ghost turns = { λ c. turns_at G.gates };

    ghost seen = { seen_at };

    ghost stands = { StandsOwn };

    ghost above = { λ c log stands. stands.seen };

    fn turn(&mut self, card: usize, act: Act<'_>) -> Answer {
        self.take_turn(card, act)
    }
}
