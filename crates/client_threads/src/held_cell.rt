// A cell behind a turnstile.
use crate::record::Record;
use card_cell::{CardCell, CellBase};
use piv_model::Store;
use turnstile::Held;

/// A card with its history, at which threads take turns.
#[derive(Drop)]
pub struct HeldCell<S: Store> {
    pub(crate) cell: CardCell<S>,
}

impl<S: Store> HeldCell<S> {
    ghost use Rattle.std.specs.Prelude.{◌≡◌};
    ghost use Rattle.client_threads.specs.Held.{cell_of};

    /// The cell, to be put behind a turnstile.
    pub fn new(cell: CardCell<S>) -> HeldCell<S>
        ensures { cell_of result ≡ cell }
    {
        HeldCell { cell }
    }

    /// The cell, once its turnstile is closed.
    pub fn into_cell(self) -> CardCell<S>
        ensures { result ≡ cell_of self }
    {
        self.cell
    }
}

impl<S: Store> Held for HeldCell<S> {
    ghost use Rattle.std.specs.Prelude.{length};
    ghost use Rattle.card_cell.specs.Cells.{history_of};
    ghost use Rattle.client_threads.specs.Held.{cell_of, HoldsAll, holds_as_many};

    type Base = CellBase;

    type Record = Record;

    ghost stands_for = { λ held base records. HoldsAll S.put_cost held base records };

    ghost record_count = { λ held. length (history_of (cell_of held)) };

    ghost counted = { λ held base records holds. holds_as_many S.put_cost held base records holds };
}
