// A port that owns its cells.
ghost use Rattle.std.specs.Prelude.{◌≡◌, [], length};
ghost use Rattle.client_api.specs.Ports.{Log, records_of};

use crate::beginnings::Beginnings;
use card_acts::{Act, Answer};
use card_cell::CardCell;
use client_api::Port;
use piv_model::Store;
use std::marker::PhantomData;

/// Cards with their histories as a port: each place in its list of own records is the number of that card's records
/// before, so what was seen of a card is its whole history.
#[derive(Drop)]
pub struct CellPort<S: Store, L: Beginnings> {
    cells: Vec<CardCell<S>>,
    of: PhantomData<L>,
}

impl<S: Store, L: Beginnings> CellPort<S, L> {
    ghost use Rattle.cell_port.specs.Owned.{HoldAll, TellAs};
    ghost use Rattle.cell_port.specs.Cells.{cells_of};

    /// A port of cells that began so, the first card's first.
    pub fn new(cells: Vec<CardCell<S>>) -> CellPort<S, L>
        ensures cells { cells_of result ≡ cells.items }
        ensures stands { HoldAll S.put_cost cells.items L.bases (λ k. []) → TellAs L.tells cells.items
            → ⟦<CellPort<S, L> as Port>⟧.stands result [] }
    {
        CellPort {
            cells,
            of: PhantomData,
        }
    }

    /// Hands the cells back, the first card's first. Each holds the records of its card, and its store tells when losses
    /// are due where it did so at the beginning.
    pub fn into_cells(self) -> Vec<CardCell<S>>
        ensures cells { result.items ≡ cells_of self }
        ensures held { (log : Log) → ⟦<CellPort<S, L> as Port>⟧.stands self log
            → HoldAll S.put_cost result.items L.bases (λ k. records_of k log) }
        ensures tells { (log : Log) → ⟦<CellPort<S, L> as Port>⟧.stands self log → TellAs L.tells result.items }
    {
        self.cells
    }
}

impl<S: Store, L: Beginnings> Port for CellPort<S, L> {
    ghost use Rattle.std.specs.Prelude.{map};
    ghost use Rattle.card_cell.specs.Holds.{base_of};
    ghost use Rattle.cell_port.specs.Owned.{OwnerStandsFor, turns_at, seen_at};
    ghost use Rattle.cell_port.specs.OwnedLaws.{seen-above};

    ghost cards = { λ p. length p.cells.items };

    ghost bases = { λ p. map (λ b. base_of b.start) L.bases };

    ghost turns = { λ p k. turns_at p.cells.items k };

    ghost seen = { λ p k. seen_at p.cells.items k };

    ghost stands = { λ p log. OwnerStandsFor S.put_cost p.cells.items L.bases L.tells log };

    ghost above = { λ p log stood. seen-above S.put_cost p.cells.items L.bases L.tells log stood };

    fn turn(&mut self, card: usize, act: Act<'_>) -> Answer {
        let cell = &mut self.cells[card];
        cell.turn(act)
    }
}
