// What calls run over.
ghost use Rattle.std.specs.Prelude.{◌≡◌, ℕ, ◌<◌, ◌≤◌, true, List, None};
ghost use Rattle.piv_model.specs.Base.{Base};
ghost use Rattle.card_acts.specs.Acts.{act_of, answer_of, IsShort, is_answer_to};

use card_acts::{Act, Answer};

/// The cards that acts are made on. A port stands for a list of own records, each with its card and its place among all
/// records of that card: other callers' records may have the places between.
pub trait Port {
    ghost use Rattle.client_api.specs.Ports.{Log, TurnedPort, AreSeen};

    /// The number of its cards.
    ghost cards: { Self → ℕ };

    /// The cards at their beginnings.
    ghost bases: { Self → List Base };

    /// The number of each card's turns.
    ghost turns: { Self → ℕ → ℕ };

    /// How many records of each card were seen: above the place of each own one.
    ghost seen: { Self → ℕ → ℕ };

    /// The lists of own records that it stands for, the newest first.
    ghost stands: { Self → Log → Type 0 };

    /// One act on a card: one own record more, or Full.
    fn turn(&mut self, card: usize, act: Act<'_>) -> Answer
        requires card { card < cards self.old }
        requires short { IsShort act }
        ensures answer { is_answer_to (act_of act.entry) (answer_of result) ≡ true }
        ensures stands { (log : Log) → stands self.old log →
            TurnedPort (stands self.new) log card (act_of act.entry) (answer_of result) }
        ensures bases { bases self.new ≡ bases self.old }
        ensures cards { cards self.new ≡ cards self.old }
        ensures turns { (k : ℕ) → turns self.new k ≡ turns self.old k }
        ensures seen { (k : ℕ) → seen self.old k ≤ seen self.new k }
        ensures full { answer_of result ≡ None → seen self.new card ≡ turns self.new card };

    ghost above: { (x : Self) (log : Log) → stands x log → AreSeen (seen x) log };
}
