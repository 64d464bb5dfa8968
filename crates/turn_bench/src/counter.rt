// A counter behind a turnstile.
ghost use Rattle.std.specs.Prelude.{◌≡◌, ◌+◌, true, length, Some, None, MatchBool, if◌then◌else◌};

use turnstile::{Held, Job};

/// The number of turns that counted.
#[derive(Drop)]
pub struct Counter {
    pub count: u64,
}

impl Held for Counter {
    type Base = ();

    type Record = ();

    ghost use Rattle.std.proofs.Common.{sym};

    ghost stands_for = { λ s base records. s.count ≡ length records };

    ghost record_count = { λ s. s.count };

    ghost counted = { λ x base records is. sym is };
}

/// Counts one more, if there is a next number.
#[derive(Drop)]
pub struct CountOne;

impl Job<Counter> for CountOne {
    type Out = bool;

    ghost ran = { λ job before out after.
        MatchBool out (after.count ≡ before.count + 1) (after.count ≡ before.count) };

    ghost made = { λ job out after. if out then Some tt else None };

    fn run(self, state: &mut Counter) -> bool {
        match state.count.checked_add(1) {
            Some(next) => {
                state.count = next;
                true
            }
            None => false,
        }
    }
}
