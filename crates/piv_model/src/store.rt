// What keeps a card's memory, on a device that can lose power.
ghost use Rattle.std.specs.Prelude.{◌≡◌, ℕ, ◌<◌, ◌≤◌, length, is_some, true, false, IsTrue, IfSome, IfOk, OnOk, OnErr};
ghost use Rattle.std.specs.Str.{bytes_eq};
ghost use Rattle.power_loss.specs.Told.{LostWhereDue};
ghost use Rattle.power_loss.specs.Power.{RisesWithin, switched_off, switched_on};
ghost use Rattle.piv_model.specs.declared.kinds.RefId.{RefId};
ghost use Rattle.piv_model.specs.declared.kinds.RefId.TheVariants.{GlobalPin};
ghost use Rattle.piv_model.specs.declared.limits.TheConstants.{LONGEST_OBJECT};
ghost use Rattle.piv_model.specs.Cipher.{encipher as enciphered};
ghost use Rattle.piv_model.specs.Forms.{is_pin, is_secret};
ghost use Rattle.piv_model.specs.Memory.{has as has_reference, reference, key_at, stored, fits};
ghost use Rattle.piv_model.specs.Changes.{change_reference, one_less, full, renewed, unblocked};
ghost use Rattle.piv_model.specs.Sound.{IsSound, is_algorithm, may_stand};
ghost use Rattle.piv_model.specs.Stores.{StoreState, changed, CutShort, Puts, AnswersRoom, LostAsDue};

use crate::kinds::{KeyId, RefId};
use crate::objects::ObjectId;

/// The power went off within the call.
#[derive(Clone, Copy, PartialEq, Eq, Debug)]
pub struct Lost;

/// Why an object wasn't put in place.
#[derive(Clone, Copy, PartialEq, Eq, Debug)]
pub enum PutFault {
    /// The power went off within the call.
    Lost,
    /// The card has no room for the value, and nothing was changed.
    TooLarge,
}

/// A store of a card's memory: limits, tries and secrets of its references, its keys, its budget and its
/// objects (SP 800-73-4 part 1).
///
/// What is said of the memory holds where the store tells it. A call that answers Lost left the memory as it
/// was or as it would have become, the power is off, and the losses rose or stand at the last number of 64
/// bits. After every other answer the losses, and all that its clauses don't name, are as before. A call of so
/// many writes is lost exactly where the first loss that is due comes within them, if the store tells when
/// losses are due.
pub trait Store {
    /// Stands for a try that was spent. Over any store it can be neither made, copied nor dropped: `spend`
    /// gives it, and `matches` or `give_up` takes it. A store keeps its own type as closed.
    type Ticket;

    /// What the store means.
    ghost state: { Self → StoreState };

    /// The reference of which a ticket's try was spent.
    ghost spent_of: { Self.Ticket → RefId };

    /// How many writes a put of so many bytes makes.
    ghost put_cost: { ℕ → ℕ };

    /// Whether the card has this reference. Every card has a PIN and a PUK.
    fn has(&self, r: RefId) -> bool
        requires on { IsTrue (state self.now).power.on }
        ensures value { IfSome (state self.now).mem (λ m. result ≡ has_reference m r) }
        ensures own { (r ≡ GlobalPin → ⊥) → result ≡ true };

    /// The tries that are left, at most 15.
    fn tries(&self, r: RefId) -> u8
        requires on { IsTrue (state self.now).power.on }
        requires has { IfSome (state self.now).mem (λ m. IsTrue (has_reference m r)) }
        ensures value { IfSome (state self.now).mem (λ m. result ≡ (reference m r).tries) }
        ensures few { result ≤ 15 };

    /// Spends a try, in two writes, before anything is compared. There has to be one.
    fn spend(&mut self, r: RefId) -> Result<Self::Ticket, Lost>
        requires on { IsTrue (state self.old).power.on }
        requires has { IfSome (state self.old).mem (λ m. IsTrue (has_reference m r)) }
        requires some { IfSome (state self.old).mem (λ m. 0 < (reference m r).tries) }
        ensures ticket { IfOk result (λ t. spent_of t ≡ r) }
        ensures ok { OnOk result (state self.new ≡ changed 2 (change_reference r one_less) (state self.old)) }
        ensures lost { OnErr result (CutShort 2 (change_reference r one_less) (state self.old) (state self.new)) }
        ensures due { LostWhereDue 2 (state self.old).power.due result };

    /// Whether the candidate is the secret of the ticket's reference. The ticket is used up.
    fn matches(&self, t: Self::Ticket, candidate: &[u8; 8]) -> bool
        requires on { IsTrue (state self.now).power.on }
        ensures { IfSome (state self.now).mem (λ m.
            result ≡ bytes_eq candidate.now (reference m (spent_of t)).secret) };

    /// Ends a ticket for which nothing is compared.
    fn give_up(t: Self::Ticket);

    /// Fills the counter, in two writes.
    fn restore(&mut self, r: RefId) -> Result<(), Lost>
        requires on { IsTrue (state self.old).power.on }
        requires has { IfSome (state self.old).mem (λ m. IsTrue (has_reference m r)) }
        ensures ok { OnOk result (state self.new ≡ changed 2 (change_reference r full) (state self.old)) }
        ensures lost { OnErr result (CutShort 2 (change_reference r full) (state self.old) (state self.new)) }
        ensures due { LostWhereDue 2 (state self.old).power.due result };

    /// Gives the reference a new secret and fills its counter, in two writes.
    fn renew(&mut self, r: RefId, new: &[u8; 8]) -> Result<(), Lost>
        requires on { IsTrue (state self.old).power.on }
        requires has { IfSome (state self.old).mem (λ m. IsTrue (has_reference m r)) }
        requires form { IsTrue (is_secret r new.now) }
        ensures ok { OnOk result (state self.new ≡ changed 2 (change_reference r (renewed new.now)) (state self.old)) }
        ensures lost { OnErr result
            (CutShort 2 (change_reference r (renewed new.now)) (state self.old) (state self.new)) }
        ensures due { LostWhereDue 2 (state self.old).power.due result };

    /// Gives a new PIN and fills the counters of PIN and PUK, in two writes.
    fn unblock(&mut self, new: &[u8; 8]) -> Result<(), Lost>
        requires on { IsTrue (state self.old).power.on }
        requires form { IsTrue (is_pin new.now) }
        ensures ok { OnOk result (state self.new ≡ changed 2 (unblocked new.now) (state self.old)) }
        ensures lost { OnErr result (CutShort 2 (unblocked new.now) (state self.old) (state self.new)) }
        ensures due { LostWhereDue 2 (state self.old).power.due result };

    /// Puts an object's value in place; an empty value removes the object.
    fn put(&mut self, id: ObjectId, value: &[u8]) -> Result<(), PutFault>
        requires on { IsTrue (state self.old).power.on }
        requires form { IfSome (state self.old).mem (λ m. IsTrue (may_stand (is_some m.global) id value.now)) }
        ensures room { IfSome (state self.old).mem (λ m. AnswersRoom (fits m value.now) result) }
        ensures puts { Puts (put_cost (length value.now)) id value.now result (state self.old) (state self.new) }
        ensures due { LostAsDue (put_cost (length value.now)) (state self.old).power.due result };

    /// The number of bytes of an object's value, 0 where the object is absent.
    fn length(&self, id: ObjectId) -> usize
        requires on { IsTrue (state self.now).power.on }
        ensures value { IfSome (state self.now).mem (λ m. result ≡ length (stored m id)) }
        ensures small { result ≤ LONGEST_OBJECT };

    /// Puts an object's value into `out`, which has the length of the value.
    fn fill(&self, id: ObjectId, out: &mut [u8])
        requires on { IsTrue (state self.now).power.on }
        requires whole { IfSome (state self.now).mem (λ m. length out.old ≡ length (stored m id)) }
        ensures { IfSome (state self.now).mem (λ m. out.new ≡ stored m id) };

    /// Whether an object has exactly this value; an empty value stands for an absent object.
    fn same(&self, id: ObjectId, value: &[u8]) -> bool
        requires on { IsTrue (state self.now).power.on }
        ensures { IfSome (state self.now).mem (λ m. result ≡ bytes_eq (stored m id) value.now) };

    /// The algorithm of a key: 08, 0A or 0C.
    fn algorithm(&self, key: KeyId) -> u8
        requires on { IsTrue (state self.now).power.on }
        ensures value { IfSome (state self.now).mem (λ m. result ≡ (key_at m key).algorithm) }
        ensures one { IsTrue (is_algorithm result) };

    /// The block enciphered under a key (FIPS 197).
    fn encipher(&self, key: KeyId, block: &[u8; 16]) -> [u8; 16]
        requires on { IsTrue (state self.now).power.on }
        ensures { IfSome (state self.now).mem (λ m. result ≡ enciphered (key_at m key).key block.now) };

    /// How often power was lost within a call.
    fn lost(&self) -> u64
        ensures { result ≡ (state self.now).power.losses };

    /// Turns the power off between two calls.
    fn cut(&mut self)
        requires on { IsTrue (state self.old).power.on }
        ensures { let old = state self.old in state self.new ≡ record old { power = switched_off old.power } };

    /// Turns the power on. It makes no write.
    fn power_up(&mut self)
        requires off { (state self.old).power.on ≡ false }
        ensures { let old = state self.old in state self.new ≡ record old { power = switched_on old.power } };

    /// A memory that is told is one that a card can have.
    ghost sound: { (s : Self) → IfSome (state s).mem (λ m. IsSound m) };

    /// Later losses come at rising numbers of writes from now, as many as the span at most.
    ghost due_rises: { (s : Self) → RisesWithin (state s).power.span (state s).power.due };
}
