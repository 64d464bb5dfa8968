// What a cell began with.
ghost use Rattle.std.specs.Prelude.{◌≡◌, [], ◌∷◌, ◌++◌, OnOk, OnErr};

use piv_model::{NoMemory, Start};
use std::alloc::Global;
use std::marker::Model;

/// The numbers of the device's writes at which power is to be lost.
#[derive(Drop)]
pub struct Plan {
    writes: Vec<u64>,
}

impl Model for Plan {
    ghost use Rattle.std.specs.Prelude.{List, ℕ};

    ghost Value = { List ℕ };

    ghost view = { λ p. p.writes.items };
}

impl Plan {
    /// No loss.
    pub fn new(alloc: Global) -> Plan
        ensures { result ≡ [] }
    {
        Plan {
            writes: Vec::new(alloc),
        }
    }

    /// Adds a loss at a write, or leaves the plan as it was.
    pub fn push(&mut self, write: u64) -> Result<(), NoMemory>
        ensures ok { OnOk result (self.new ≡ self.old ++ write ∷ []) }
        ensures err { OnErr result (self.new ≡ self.old) }
    {
        self.writes.push(write)?;
        Ok(())
    }
}

/// What a cell began with: its card, the number of its turns, the plan of its device's losses, and the count of losses
/// of its store.
#[derive(Drop)]
pub struct CellBase {
    pub start: Start,
    pub turns: usize,
    pub plan: Plan,
    pub losses: u64,
}
