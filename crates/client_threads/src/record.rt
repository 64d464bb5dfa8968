// What one turn adds to a card.
use std::marker::Model;

/// An act on a card with its entry and its answer. No value of it is made: contracts alone speak of records.
pub struct Record;

impl Model for Record {
    ghost use Rattle.piv_rules.specs.Acts.{CardRecord};

    ghost Value = { CardRecord };

    ghost use Rattle.client_threads.specs.Records.{a_cut};

    ghost view = { λ r. a_cut };
}
