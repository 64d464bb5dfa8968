// A cell: a card with its history.
ghost use Rattle.std.specs.Prelude.{◌≡◌, ◌↔◌, ◌≤◌, ◌<◌, ◌-◌, ◌+◌, ◌*◌, ℕ, List, [], length, true, false, find, Some, IsTrue, IsSome, IfSome, IfOk, IfErr};
ghost use Rattle.piv_model.specs.declared.kinds.Interface.{Interface};
ghost use Rattle.piv_model.specs.Base.{Base};
ghost use Rattle.piv_model.specs.Memory.{has, reference};
ghost use Rattle.piv_model.specs.Written.{HasRoom};
ghost use Rattle.piv_rules.specs.Acts.{Records, entries};
ghost use Rattle.piv_rules.specs.Legal.{IsLegal};
ghost use Rattle.piv_rules.specs.Memories.{comparisons, mem, spends_since};
ghost use Rattle.piv_rules.specs.Plans.{IsPlanOf};
ghost use Rattle.card_app.specs.Left.{Left};
ghost use Rattle.card_app.specs.Stands.{held_card, is_attached, attached_count};
ghost use Rattle.card_acts.specs.Acts.{act_of, answer_of, is_answer_to, IsShort};
ghost use Rattle.card_cell.specs.Acknowledged.{HasAcknowledged};
ghost use Rattle.card_cell.specs.declared.base.CellBase.{CellBase};
ghost use Rattle.card_cell.specs.Epochs.{epoch_in};
ghost use Rattle.card_cell.specs.Kept.{has_number};

use crate::connections::Connections;
use crate::epochs::Epochs;
use crate::tally::Tally;
use card_acts::{Act, Answer};
use card_app::{Card, CardFault};
use challenge_blocks::Blocks;
use piv_model::{History, RefId, Store};
use std::alloc::Global;

// The bytes of commands that are reserved for each turn.
const TURN_BYTES: usize = 512;

/// A card over a store, with its history and a number of turns.
#[derive(Drop)]
pub struct CardCell<S: Store> {
    pub(crate) card: Card<S>,
    pub(crate) history: History,
    pub(crate) connections: Connections,
    pub(crate) epochs: Epochs,
    pub(crate) blocks: Blocks,
    pub(crate) has_global: bool,
    pub(crate) tally: Tally,
    turns: usize,
    ghost few: { turns ≤ 1000000 },
    ghost used: { length history.past ≤ turns },
    ghost room: { HasRoom (turns - length history.past) (512 * (turns - length history.past) + held_card card) history },
    ghost epochs_counted: { (i : Interface) → epoch_in epochs i ≤ length history.past },
    ghost opened: { connections.opened ≤ length history.past },
    ghost attached: { (c : ℕ) → IsSome (find (has_number c) connections.kept.items) → is_attached card c ≡ true },
    ghost numbered: { (c : ℕ) → is_attached card c ≡ true → c ≤ connections.opened },
    ghost counted: { length connections.kept.items ≤ attached_count card },
}

impl<S: Store> CardCell<S> {
    ghost use Rattle.card_cell.specs.Cells.{CellStandsFor, TurnsOnce, followed, history_of, turns_of, store_of};
    ghost use Rattle.card_cell.specs.Holds.{BeginsWith, IsHeld};

    /// A cell over a store that has power, with so many turns, at most 1,000,000. Its buffers are reserved here, with 512
    /// bytes of commands for each turn; where memory is wanting the store is handed back.
    pub fn new(
        alloc: Global,
        store: S,
        random: &[u8; 32],
        turns: usize,
    ) -> Result<CardCell<S>, CardFault<S>>
        requires on { IsTrue (S.state store).power.on }
        requires few { turns ≤ 1000000 }
        ensures stands { IfOk result (λ cell. (B : Base) → B.random ≡ random.now
            → (S.state store).mem ≡ Some B.memory → CellStandsFor cell B []) }
        ensures held { IfOk result (λ cell. (base : CellBase) → BeginsWith base random.now turns (S.state store)
            → IsHeld S.put_cost cell base []) }

        // What its store tells is due is a plan of the cell.
        ensures plan { IfOk result (λ cell. (B : Base) → IfSome (S.state (store_of cell)).power.due (λ due.
            IsPlanOf S.put_cost B due [] due)) }
        ensures empty { IfOk result (λ cell. history_of cell ≡ []) }
        ensures turns { IfOk result (λ cell. turns_of cell ≡ turns) }
        ensures same { IfOk result (λ cell. store_of cell ≡ store) }
        ensures err { IfErr result (λ fault. fault ≡ CardFault.NoMemory store) }
    {
        let has_global = store.has(RefId::GlobalPin);
        let Ok(history) = History::with_room(alloc, turns, TURN_BYTES * turns) else {
            return Err(CardFault::NoMemory(store));
        };
        let Ok(connections) = Connections::new(alloc) else {
            return Err(CardFault::NoMemory(store));
        };
        match Card::new(alloc, store) {
            Err(fault) => Err(fault),
            Ok(card) => Ok(CardCell {
                card,
                history,
                connections,
                epochs: Epochs::new(),
                blocks: Blocks::new(*random),
                has_global,
                tally: Tally::new(),
                turns,
            }),
        }
    }

    /// One act: exactly one entry more, and none where all turns are used. It takes no memory.
    pub fn turn(&mut self, act: Act<'_>) -> Answer
        requires short { IsShort act }
        ensures answer { is_answer_to (act_of act.entry) (answer_of result) ≡ true }
        ensures full { (result ≡ Answer.Full) ↔ (length (history_of self.old) ≡ turns_of self.old) }
        ensures same { result ≡ Answer.Full → self.new ≡ self.old }
        ensures turned { IfSome (answer_of result) (TurnsOnce S.put_cost self.old self.new (act_of act.entry)) }

        // It stands for one record more, and for none more where all turns are used.
        ensures stands { (B : Base) (R : Records) → CellStandsFor self.old B R
            → CellStandsFor self.new B (followed (act_of act.entry) self.new (answer_of result) R) }
        ensures held { (base : CellBase) (R : Records) → IsHeld S.put_cost self.old base R
            → IsHeld S.put_cost self.new base (followed (act_of act.entry) self.new (answer_of result) R) }
    {
        if self.history.len() >= self.turns {
            return Answer::Full;
        }
        self.make(act)
    }

    /// The history: its entries are those of the records, and it is legal. What a command of it was granted is in its memory.
    #[tactic(auto, using(crate::proofs::Lasting::acknowledged_laws))]
    pub fn history(&self) -> &History
        ensures same { result.now.past ≡ history_of self.now }
        ensures past { (B : Base) (R : Records) → CellStandsFor self.now B R → result.now.past ≡ entries R }
        ensures legal { (B : Base) (R : Records) → CellStandsFor self.now B R → IsLegal B result.now.past }

        // What was acknowledged lasts, over any loss of power, until an accepted command changes it.
        ensures lasts { (B : Base) (R : Records) → CellStandsFor self.now B R
            → HasAcknowledged B result.now.past (mem B result.now.past) }
    {
        &self.history
    }

    /// The comparisons of a reference without a match since its counter was last filled; 0 for one that the card doesn't
    /// have. Over a store that tells nothing they are counted to 255.
    pub fn comparisons(&self, r: RefId) -> u8
        ensures count { (B : Base) (R : Records) → CellStandsFor self.now B R → result ≡ comparisons B (entries R) r }
        ensures most { (B : Base) (R : Records) → CellStandsFor self.now B R → result ≤ (reference B.memory r).limit }

        // Nor are tries spent beyond the limit.
        ensures spends { (B : Base) (R : Records) → CellStandsFor self.now B R → IsTrue (has B.memory r)
            → spends_since B (entries R) r ≤ (reference B.memory r).limit }
    {
        if self.has(r) { self.tally.of(r) } else { 0 }
    }

    /// The turns that are left.
    pub fn room(&self) -> usize
        ensures { result + length (history_of self.now) ≡ turns_of self.now }
    {
        self.turns - self.history.len()
    }

    /// Hands over the store, with what the records left of the memory, and the history.
    pub fn into_parts(self) -> (S, History)
        ensures store { result.0 ≡ store_of self }
        ensures left { (B : Base) (R : Records) → CellStandsFor self B R
            → Left B R (λ m. (S.state result.0).mem ≡ Some m) }
        ensures history { result.1.past ≡ history_of self }
    {
        (self.card.into_store(), self.history)
    }

    // Whether the card has a reference.
    fn has(&self, r: RefId) -> bool
        ensures { (B : Base) (R : Records) → CellStandsFor self.now B R → result ≡ has B.memory r }
    {
        match r {
            RefId::Pin => true,
            RefId::Puk => true,
            RefId::GlobalPin => self.has_global,
        }
    }

    // An act, where a turn is left.
    fn make(&mut self, act: Act<'_>) -> Answer
        requires left { length (history_of self.old) < turns_of self.old }
        ensures some { IsSome (answer_of result) }
        ensures answer { is_answer_to (act_of act.entry) (answer_of result) ≡ true }
        ensures turned { IfSome (answer_of result) (TurnsOnce S.put_cost self.old self.new (act_of act.entry)) }
    {
        match act {
            Act::Connect { interface, shared } => self.connect(interface, shared),
            Act::Disconnect { c } => self.disconnect(c),
            Act::Exchange { c, epoch, bytes } => self.exchange(c, epoch, bytes),
            Act::Reset { interface } => self.reset(interface),
            Act::Cut => self.cut(),
            Act::Power => self.power(),
        }
    }
}
