// The comparisons without a match that a card counts for each of its references.
ghost use Rattle.std.specs.Prelude.{◌≡◌};
ghost use Rattle.piv_model.specs.declared.kinds.RefId.{RefId};
ghost use Rattle.card_cell.specs.Counts.{fills_counter, after_call, after_up};

use crate::compared::Comparison;
use piv_model::{RefId, Took};

// For each reference, the comparisons since its counter was filled.
#[derive(Clone, Copy, Debug)]
pub(crate) struct Tally {
    pin: u8,
    puk: u8,
    global: u8,
}

// A match fills the counter of this reference.
fn fills_counter(r: RefId, comparison: Comparison) -> bool
    ensures { result ≡ fills_counter r comparison }
{
    r == comparison.reference || (comparison.unblocks && r == RefId::Pin)
}

// The count of a reference after a Call.
fn after_call(r: RefId, comparison: Option<Comparison>, took: Took, count: u8) -> u8
    ensures { result ≡ after_call r comparison took count }
{
    match comparison {
        None => count,
        Some(comparison) => match took {
            Took::Nothing => count,
            Took::Spent => {
                if r == comparison.reference {
                    count.saturating_add(1)
                } else {
                    count
                }
            }
            Took::Done => {
                if fills_counter(r, comparison) {
                    0
                } else {
                    count
                }
            }
        },
    }
}

// The count of a reference after an Up.
fn after_up(r: RefId, comparison: Option<Comparison>, took: Took, count: u8) -> u8
    ensures { result ≡ after_up r comparison took count }
{
    match comparison {
        None => count,
        Some(comparison) => match took {
            Took::Nothing => count,
            Took::Spent => count,
            Took::Done => {
                if fills_counter(r, comparison) {
                    0
                } else {
                    count
                }
            }
        },
    }
}

impl Tally {
    ghost use Rattle.card_cell.specs.Tally.{count_in};

    pub(crate) fn new() -> Tally
        ensures { (r : RefId) → count_in result r ≡ 0 }
    {
        Tally {
            pin: 0,
            puk: 0,
            global: 0,
        }
    }

    // The count of a reference.
    pub(crate) fn of(&self, r: RefId) -> u8
        ensures { result ≡ count_in self.now r }
    {
        match r {
            RefId::Pin => self.pin,
            RefId::Puk => self.puk,
            RefId::GlobalPin => self.global,
        }
    }

    // A command was called that made this comparison, if any, and came so far.
    pub(crate) fn call(&mut self, comparison: Option<Comparison>, took: Took)
        ensures { (r : RefId) → count_in self.new r ≡ after_call r comparison took (count_in self.old r) }
    {
        self.pin = after_call(RefId::Pin, comparison, took, self.pin);
        self.puk = after_call(RefId::Puk, comparison, took, self.puk);
        self.global = after_call(RefId::GlobalPin, comparison, took, self.global);
    }

    // Power was switched on, and the command in flight made this comparison, if any, and came so far.
    pub(crate) fn up(&mut self, comparison: Option<Comparison>, took: Took)
        ensures { (r : RefId) → count_in self.new r ≡ after_up r comparison took (count_in self.old r) }
    {
        self.pin = after_up(RefId::Pin, comparison, took, self.pin);
        self.puk = after_up(RefId::Puk, comparison, took, self.puk);
        self.global = after_up(RefId::GlobalPin, comparison, took, self.global);
    }
}
