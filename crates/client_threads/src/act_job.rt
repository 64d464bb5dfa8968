// One act in a turn.
ghost use Rattle.std.specs.Prelude.{◌≡◌};
ghost use Rattle.card_acts.specs.Acts.{act_of, IsShort};

use crate::held_cell::HeldCell;
use card_cell::{Act, Answer};
use piv_model::Store;
use std::marker::Model;
use turnstile::Job;

/// Makes one act on a cell: one record, and none where the cell has had all its turns. Contracts see the act.
#[derive(Drop)]
pub struct ActJob<'a> {
    act: Act<'a>,
}

impl<'a> Model for ActJob<'a> {
    ghost use Rattle.piv_rules.specs.Acts.{CardAct};
    ghost use Rattle.card_acts.specs.Acts.{act_of, IsShort};

    ghost Value = { CardAct };

    ghost view = { λ job. act_of job.act };

    ghost invariant = { λ job. IsShort job.act };
}

impl<'a> ActJob<'a> {
    /// A job of this act. The bytes of an exchange are at most 512.
    pub fn new(act: Act<'a>) -> ActJob<'a>
        requires short { IsShort act }
        ensures { result ≡ act_of act.entry }
    {
        ActJob { act }
    }
}

impl<'a, S: Store> Job<HeldCell<S>> for ActJob<'a> {
    ghost use Rattle.card_acts.specs.Acts.{answer_of};
    ghost use Rattle.client_threads.specs.Held.{Ran, record_made};

    type Out = Answer;

    ghost ran = { λ act found answer left. Ran act (answer_of answer) found };

    ghost made = { λ act answer left. record_made act (answer_of answer) left };

    fn run(self, state: &mut HeldCell<S>) -> Answer {
        state.cell.turn(self.act)
    }
}
