// What an owner knows of its cards.
ghost use Rattle.std.specs.Prelude.{ℕ, ◌≤◌, length};
ghost use Rattle.client_api.specs.Ports.{Log, records_of};

use crate::beginnings::Beginnings;
use crate::cells::CellPort;
use client_api::Port;
use piv_model::Store;

/// Of no card was more seen than its owner has recorded: nobody else makes turns on it.
pub fn owners_have_recorded_all<S: Store, L: Beginnings>(port: &CellPort<S, L>)
    ensures { (log : Log) (k : ℕ) → ⟦<CellPort<S, L> as Port>⟧.stands port.now log
        → ⟦<CellPort<S, L> as Port>⟧.seen port.now k ≤ length (records_of k log) }
{}
