//! Callers that make two turns. What they promise follows from the clauses of a turn, with no proof of their own.
ghost use Rattle.std.specs.Prelude.{◌≡◌, ◌≤◌, true};
ghost use Rattle.piv_model.specs.Base.{Base};
ghost use Rattle.piv_model.specs.Memory.{reference};
ghost use Rattle.piv_rules.specs.Acts.{Records};
ghost use Rattle.piv_rules.specs.Legal.{IsLegal};
ghost use Rattle.card_acts.specs.Acts.{IsShort, act_of, answer_of, is_answer_to};
ghost use Rattle.card_cell.specs.Cells.{CellStandsFor, followed};

use card_cell::{Act, Answer, CardCell};
use piv_model::{History, RefId, Store};

/// Two acts, one after the other. The cell stands for its base, and the newest record is that of the second one, unless that
/// was answered Full.
pub fn two_turns<S: Store>(
    cell: &mut CardCell<S>,
    first: Act<'_>,
    second: Act<'_>,
) -> (Answer, Answer)
    requires short { IsShort first × IsShort second }
    ensures first { is_answer_to (act_of first.entry) (answer_of result.0) ≡ true }
    ensures second { is_answer_to (act_of second.entry) (answer_of result.1) ≡ true }
    ensures stands { (B : Base) (R : Records) → CellStandsFor cell.old B R → (between : Records)
        × CellStandsFor cell.new B (followed (act_of second.entry) cell.new (answer_of result.1) between) }
{
    let first = cell.turn(first);
    let second = cell.turn(second);
    (first, second)
}

/// The history after two acts, which is legal.
pub fn history_after_two<'a, S: Store>(
    cell: &'a mut CardCell<S>,
    first: Act<'_>,
    second: Act<'_>,
) -> &'a History
    requires short { IsShort first × IsShort second }
    ensures legal { (B : Base) (R : Records) → CellStandsFor cell.old B R → IsLegal B result.now.past }
{
    two_turns(cell, first, second);
    cell.history()
}

/// The comparisons of a reference after two acts, which are at most its limit.
pub fn comparisons_after_two<S: Store>(
    cell: &mut CardCell<S>,
    first: Act<'_>,
    second: Act<'_>,
    r: RefId,
) -> u8
    requires short { IsShort first × IsShort second }
    ensures most { (B : Base) (R : Records) → CellStandsFor cell.old B R → result ≤ (reference B.memory r).limit }
{
    two_turns(cell, first, second);
    cell.comparisons(r)
}
