// A list of numbers, of which the tests' threads each add some.
ghost use Rattle.std.specs.Prelude.{◌≡◌, ◌++◌, ◌∷◌, [], length, Some, None, MatchBool, if◌then◌else◌};

use crate::held::{Held, Job};

// The numbers that were added to a label.
#[derive(Drop)]
pub struct Numbers {
    pub label: u64,
    pub all: Vec<u64>,
}

impl Held for Numbers {
    type Base = u64;

    type Record = u64;

    ghost stands_for = { λ s base records. (s.label ≡ base) × (s.all.items ≡ records) };

    ghost record_count = { λ s. length s.all.items };

    ghost use Rattle.std.proofs.Common.{ap, sym};

    ghost counted = { λ x base records is. ap length (sym is.1) };
}

// Adds a number, if there is memory.
#[derive(Drop)]
pub struct Add {
    pub number: u64,
}

impl Job<Numbers> for Add {
    type Out = bool;

    ghost ran = { λ job before out after. MatchBool out
        (after.all.items ≡ before.all.items ++ job.number ∷ []) (after.all.items ≡ before.all.items) };

    ghost made = { λ job out after. if out then Some job.number else None };

    fn run(self, state: &mut Numbers) -> bool {
        state.all.push(self.number).is_ok()
    }
}

// Tells how many numbers there are, and adds none.
#[derive(Drop)]
pub struct Count;

impl Job<Numbers> for Count {
    type Out = usize;

    ghost ran = { λ job before out after. (out ≡ length before.all.items) × (after ≡ before) };

    ghost made = { λ job out after. None };

    fn run(self, state: &mut Numbers) -> usize {
        state.all.len()
    }
}
