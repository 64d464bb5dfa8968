// What a client was made from.
use std::marker::Brand;

/// The turnstiles of a client, in the order of its cards, and its passes as they were handed in: so a client that is lent
/// as a port can't be exchanged for another. It exists in contracts alone; a call at `Brand` picks it.
pub trait Gates {
    ghost use Rattle.std.specs.Prelude.{List};
    ghost use Rattle.client_threads.specs.Passes.{CellGate, CellPass};

    ghost gates: { List CellGate };

    ghost passes: { List CellPass };
}

impl Gates for Brand {
    ghost use Rattle.std.specs.Prelude.{[]};

    ghost gates = { [] };

    ghost passes = { [] };
}
