// The store.
ghost use Rattle.std.specs.Prelude.{◌≡◌, ◌<◌, ◌≤◌, ◌+◌, ◌-◌, min, length, is_some, is_err, Err, true, false, Some, None, IsTrue, IfSome, IfOk, OnOk, OnErr};
ghost use Rattle.std.proofs.Props.{props};
ghost use Rattle.power_loss.specs.Due.{RisesFrom, RisesFrom-prop};
ghost use Rattle.power_loss.specs.Plans.{write_numbers, planned_in, whole};
ghost use Rattle.power_loss.specs.Told.{LostWhereDue};
ghost use Rattle.power_loss.specs.Power.{switched_off, switched_on};
ghost use Rattle.std.specs.Str.{bytes_eq};
ghost use Rattle.piv_model.specs.declared.kinds.RefId.TheVariants.{GlobalPin};
ghost use Rattle.piv_model.specs.declared.store.PutFault.TheVariants.{TooLarge};
ghost use Rattle.piv_model.specs.Cipher.{encipher as enciphered};
ghost use Rattle.piv_model.specs.Forms.{is_pin, is_secret};
ghost use Rattle.piv_model.specs.Memory.{has as has_reference, reference, key_at, stored, fits, blocks as blocks_of};
ghost use Rattle.piv_model.specs.Changes.{change_reference, one_less, full, renewed, unblocked, with_object};
ghost use Rattle.piv_model.specs.Sound.{IsSound, is_algorithm, may_stand};
ghost use Rattle.piv_model.specs.Stores.{changed, CutShort, Puts, AnswersRoom, LostAsDue};
ghost use Rattle.piv_model.specs.Starts.{memory_of_start, SpellsMemory};
ghost use Rattle.memory_store.specs.Changes.{changed_by, bytes_put, may_be_made};
ghost use Rattle.memory_store.specs.Told.{told as told_if};

use crate::loss::{Leaves, Loss};
use crate::memory::{CardMemory, Change, blocks};
use piv_model::{KeyId, Lost, NoMemory, ObjectId, PutFault, RefId, Start, Store};
use power_loss::Plan;
use std::alloc::Global;

// The writes of a call on references.
const REFERENCE_WRITES: u64 = 2;

const MOST_TRIES: u8 = 15;

/// A try that was spent on a store in memory. It can be neither copied nor dropped: `matches` or `give_up`
/// ends it.
#[must_use]
pub struct Ticket {
    reference: RefId,
}

/// A store in memory. Its writes are counted as those of a store that copies on write: two for a call on
/// references, and for a put one for each block of the value and two more.
#[derive(Drop)]
pub struct MemoryStore {
    memory: CardMemory,
    on: bool,
    plan: Plan<Leaves>,
    // Says what contracts know of the store. No answer depends on it.
    told: bool,
    ghost sound: { IfSome (told_if told memory) IsSound } by { Prim.hlevel props },
    ghost rises: { RisesFrom 0 (write_numbers plan.to_come) } by { RisesFrom-prop 0 (write_numbers plan.to_come) },
    ghost within: { length plan.to_come ≤ plan.span },
}

impl MemoryStore {
    ghost use Rattle.memory_store.specs.Kept.{memory_of, plan_of, KeepsMemory};

    /// A store with power that holds the memory of a start. `losses` are the losses to come, by rising
    /// numbers of writes from 1.
    pub fn new(alloc: Global, start: &Start, losses: Vec<Loss>) -> Result<MemoryStore, NoMemory>
        requires spells { SpellsMemory start.now }
        requires rises { RisesFrom 0 (write_numbers losses.items) }
        ensures state { IfOk result (λ store. ⟦<MemoryStore as Store>⟧.state store ≡ record {
          mem = Some (memory_of_start start.now);
          power = record { on = true; losses = 0; span = length losses.items; due = Some (write_numbers losses.items) };
        }) }
        ensures memory { IfOk result (λ store. memory_of store ≡ memory_of_start start.now) }
        ensures plan { IfOk result (λ store. plan_of store ≡ whole losses.items) }
    {
        let memory = CardMemory::new(alloc, start)?;
        Ok(MemoryStore {
            memory,
            on: true,
            plan: Plan::new(losses),
            told: true,
        })
    }

    /// The same store, which tells neither its memory nor when losses are due.
    pub fn untold(mut self) -> MemoryStore
        ensures state { let state = ⟦<MemoryStore as Store>⟧.state in
            state result ≡ record { mem = None; power = record (state self).power { due = None } } }
        ensures memory { memory_of result ≡ memory_of self }
        ensures plan { plan_of result ≡ plan_of self }
    {
        self.told = false;
        self
    }

    // Makes so many writes, which change the memory. A loss among them turns the power off.
    #[tactic(auto, using(crate::proofs::Sounds::told_changed))]
    fn change(&mut self, writes: u64, change: &Change<'_>) -> Result<(), Lost>
        requires on { IsTrue self.old.on }
        requires short { length (bytes_put change.now) ≤ 16384 }
        requires form { IfSome (told_if self.old.told self.old.memory) (λ m. IsTrue (may_be_made change.now m)) }
        ensures ok { let state = ⟦<MemoryStore as Store>⟧.state in
            OnOk result (state self.new ≡ changed writes (changed_by change.now) (state self.old)) }
        ensures lost { let state = ⟦<MemoryStore as Store>⟧.state in
            OnErr result (CutShort writes (changed_by change.now) (state self.old) (state self.new)) }
        ensures planned { is_err result ≡ is_some (planned_in writes (plan_of self.old).to_come) }
        ensures kept { KeepsMemory writes (changed_by change.now) self.old self.new }
        ensures due { LostWhereDue writes (⟦<MemoryStore as Store>⟧.state self.old).power.due result }
    {
        let loss = self.plan.planned_in(writes).copied();
        self.plan.make(writes);
        if loss != Some(Leaves::Old) {
            self.memory.change(change);
        }
        if loss.is_some() {
            self.on = false;
            return Err(Lost);
        }
        Ok(())
    }
}

impl Store for MemoryStore {
    type Ticket = Ticket;

    ghost use Rattle.memory_store.specs.Kept.{memory_of, told_memory, plan_of, KeepsMemory};
    ghost use Rattle.memory_store.specs.Laws.{told_rises};

    ghost state = { λ s. record {
      mem = told_if s.told s.memory;
      power = record {
        on = s.on;
        losses = s.plan.span - length s.plan.to_come;
        span = s.plan.span;
        due = told_if s.told (write_numbers s.plan.to_come);
      };
    } };

    ghost spent_of = { λ t. t.reference };

    ghost put_cost = { λ n. blocks_of n + 2 };

    ghost sound = { λ s. s.sound };

    ghost due_rises = { λ s. told_rises s.told s.plan s.rises s.within };

    fn has(&self, r: RefId) -> bool
        requires on { IsTrue (⟦<MemoryStore as Store>⟧.state self.now).power.on }
        ensures value { IfSome (told_memory self.now) (λ m. result ≡ has_reference m r) }
        ensures own { (r ≡ GlobalPin → ⊥) → result ≡ true }
        ensures kept { result ≡ has_reference (memory_of self.now) r }
    {
        self.memory.reference(r).is_some()
    }

    fn tries(&self, r: RefId) -> u8
        requires on { IsTrue (⟦<MemoryStore as Store>⟧.state self.now).power.on }
        requires has { IfSome (told_memory self.now) (λ m. IsTrue (has_reference m r)) }
        ensures value { IfSome (told_memory self.now) (λ m. result ≡ (reference m r).tries) }
        ensures few { result ≤ 15 }
        ensures kept { let m = memory_of self.now in
            IsTrue (has_reference m r) → result ≡ min (reference m r).tries 15 }
    {
        match self.memory.reference(r) {
            Some(x) => x.tries.min(MOST_TRIES),
            None => 0,
        }
    }

    fn spend(&mut self, r: RefId) -> Result<Ticket, Lost>
        requires on { IsTrue (⟦<MemoryStore as Store>⟧.state self.old).power.on }
        requires has { IfSome (told_memory self.old) (λ m. IsTrue (has_reference m r)) }
        requires some { IfSome (told_memory self.old) (λ m. 0 < (reference m r).tries) }
        ensures ticket { IfOk result (λ t. ⟦<MemoryStore as Store>⟧.spent_of t ≡ r) }
        ensures ok { let state = ⟦<MemoryStore as Store>⟧.state in
            OnOk result (state self.new ≡ changed 2 (change_reference r one_less) (state self.old)) }
        ensures lost { let state = ⟦<MemoryStore as Store>⟧.state in
            OnErr result (CutShort 2 (change_reference r one_less) (state self.old) (state self.new)) }
        ensures due { LostWhereDue 2 (⟦<MemoryStore as Store>⟧.state self.old).power.due result }
        ensures planned { is_err result ≡ is_some (planned_in 2 (plan_of self.old).to_come) }
        ensures kept { KeepsMemory 2 (change_reference r one_less) self.old self.new }
    {
        self.change(REFERENCE_WRITES, &Change::Spend(r))?;
        Ok(Ticket { reference: r })
    }

    fn matches(&self, t: Ticket, candidate: &[u8; 8]) -> bool
        requires on { IsTrue (⟦<MemoryStore as Store>⟧.state self.now).power.on }
        ensures value { let spent_of = ⟦<MemoryStore as Store>⟧.spent_of in
            IfSome (told_memory self.now) (λ m. result ≡ bytes_eq candidate.now (reference m (spent_of t)).secret) }
        ensures kept { let r = ⟦<MemoryStore as Store>⟧.spent_of t in let m = memory_of self.now in
            IsTrue (has_reference m r) → result ≡ bytes_eq candidate.now (reference m r).secret }
    {
        let Ticket { reference } = t;
        match self.memory.reference(reference) {
            Some(x) => x.has_secret(candidate),
            None => false,
        }
    }

    fn give_up(t: Ticket) {
        let Ticket { reference: _ } = t;
    }

    fn restore(&mut self, r: RefId) -> Result<(), Lost>
        requires on { IsTrue (⟦<MemoryStore as Store>⟧.state self.old).power.on }
        requires has { IfSome (told_memory self.old) (λ m. IsTrue (has_reference m r)) }
        ensures ok { let state = ⟦<MemoryStore as Store>⟧.state in
            OnOk result (state self.new ≡ changed 2 (change_reference r full) (state self.old)) }
        ensures lost { let state = ⟦<MemoryStore as Store>⟧.state in
            OnErr result (CutShort 2 (change_reference r full) (state self.old) (state self.new)) }
        ensures due { LostWhereDue 2 (⟦<MemoryStore as Store>⟧.state self.old).power.due result }
        ensures planned { is_err result ≡ is_some (planned_in 2 (plan_of self.old).to_come) }
        ensures kept { KeepsMemory 2 (change_reference r full) self.old self.new }
    {
        self.change(REFERENCE_WRITES, &Change::Restore(r))
    }

    fn renew(&mut self, r: RefId, new: &[u8; 8]) -> Result<(), Lost>
        requires on { IsTrue (⟦<MemoryStore as Store>⟧.state self.old).power.on }
        requires has { IfSome (told_memory self.old) (λ m. IsTrue (has_reference m r)) }
        requires form { IsTrue (is_secret r new.now) }
        ensures ok { let state = ⟦<MemoryStore as Store>⟧.state in
            OnOk result (state self.new ≡ changed 2 (change_reference r (renewed new.now)) (state self.old)) }
        ensures lost { let state = ⟦<MemoryStore as Store>⟧.state in
            OnErr result (CutShort 2 (change_reference r (renewed new.now)) (state self.old) (state self.new)) }
        ensures due { LostWhereDue 2 (⟦<MemoryStore as Store>⟧.state self.old).power.due result }
        ensures planned { is_err result ≡ is_some (planned_in 2 (plan_of self.old).to_come) }
        ensures kept { KeepsMemory 2 (change_reference r (renewed new.now)) self.old self.new }
    {
        self.change(REFERENCE_WRITES, &Change::Renew(r, new))
    }

    fn unblock(&mut self, new: &[u8; 8]) -> Result<(), Lost>
        requires on { IsTrue (⟦<MemoryStore as Store>⟧.state self.old).power.on }
        requires form { IsTrue (is_pin new.now) }
        ensures ok { let state = ⟦<MemoryStore as Store>⟧.state in
            OnOk result (state self.new ≡ changed 2 (unblocked new.now) (state self.old)) }
        ensures lost { let state = ⟦<MemoryStore as Store>⟧.state in
            OnErr result (CutShort 2 (unblocked new.now) (state self.old) (state self.new)) }
        ensures due { LostWhereDue 2 (⟦<MemoryStore as Store>⟧.state self.old).power.due result }
        ensures planned { is_err result ≡ is_some (planned_in 2 (plan_of self.old).to_come) }
        ensures kept { KeepsMemory 2 (unblocked new.now) self.old self.new }
    {
        self.change(REFERENCE_WRITES, &Change::Unblock(new))
    }

    fn put(&mut self, id: ObjectId, value: &[u8]) -> Result<(), PutFault>
        requires on { IsTrue (⟦<MemoryStore as Store>⟧.state self.old).power.on }
        requires form { IfSome (told_memory self.old) (λ m. IsTrue (may_stand (is_some m.global) id value.now)) }
        ensures room { IfSome (told_memory self.old) (λ m. AnswersRoom (fits m value.now) result) }
        ensures puts { let state = ⟦<MemoryStore as Store>⟧.state in
            let cost = ⟦<MemoryStore as Store>⟧.put_cost (length value.now) in
            Puts cost id value.now result (state self.old) (state self.new) }
        ensures due { let due = (⟦<MemoryStore as Store>⟧.state self.old).power.due in
            LostAsDue (⟦<MemoryStore as Store>⟧.put_cost (length value.now)) due result }
        ensures kept_room { AnswersRoom (fits (memory_of self.old) value.now) result }
        ensures same { result ≡ Err TooLarge → memory_of self.new ≡ memory_of self.old }
        ensures same_plan { result ≡ Err TooLarge → plan_of self.new ≡ plan_of self.old }
        ensures kept { IsTrue (fits (memory_of self.old) value.now)
            → KeepsMemory (blocks_of (length value.now) + 2) (with_object id value.now) self.old self.new }
    {
        if !self.memory.has_room(value) {
            return Err(PutFault::TooLarge);
        }
        let writes = blocks(value.len()) as u64 + 2;
        self.change(writes, &Change::Put(id, value))
            .or(Err(PutFault::Lost))
    }

    fn length(&self, id: ObjectId) -> usize
        requires on { IsTrue (⟦<MemoryStore as Store>⟧.state self.now).power.on }
        ensures value { IfSome (told_memory self.now) (λ m. result ≡ length (stored m id)) }
        ensures small { result ≤ 16384 }
        ensures kept { result ≡ length (stored (memory_of self.now) id) }
    {
        self.memory.value(id).len()
    }

    fn fill(&self, id: ObjectId, out: &mut [u8])
        requires on { IsTrue (⟦<MemoryStore as Store>⟧.state self.now).power.on }
        requires whole { IfSome (told_memory self.now) (λ m. length out.old ≡ length (stored m id)) }
        ensures value { IfSome (told_memory self.now) (λ m. out.new ≡ stored m id) }
        ensures kept { let value = stored (memory_of self.now) id in
            length out.old ≡ length value → out.new ≡ value }
    {
        let value = self.memory.value(id);
        let whole = out.len().min(value.len());
        out[..whole].copy_from_slice(&value[..whole]);
    }

    fn same(&self, id: ObjectId, value: &[u8]) -> bool
        requires on { IsTrue (⟦<MemoryStore as Store>⟧.state self.now).power.on }
        ensures value { IfSome (told_memory self.now) (λ m. result ≡ bytes_eq (stored m id) value.now) }
        ensures kept { result ≡ bytes_eq (stored (memory_of self.now) id) value.now }
    {
        self.memory.value(id) == value
    }

    fn algorithm(&self, key: KeyId) -> u8
        requires on { IsTrue (⟦<MemoryStore as Store>⟧.state self.now).power.on }
        ensures value { IfSome (told_memory self.now) (λ m. result ≡ (key_at m key).algorithm) }
        ensures one { IsTrue (is_algorithm result) }
        ensures kept { result ≡ (key_at (memory_of self.now) key).algorithm }
    {
        self.memory.key(key).algorithm()
    }

    fn encipher(&self, key: KeyId, block: &[u8; 16]) -> [u8; 16]
        requires on { IsTrue (⟦<MemoryStore as Store>⟧.state self.now).power.on }
        ensures value { IfSome (told_memory self.now) (λ m. result ≡ enciphered (key_at m key).key block.now) }
        ensures kept { result ≡ enciphered (key_at (memory_of self.now) key).key block.now }
    {
        self.memory.key(key).encipher(block)
    }

    fn lost(&self) -> u64 {
        self.plan.came()
    }

    fn cut(&mut self)
        requires on { IsTrue (⟦<MemoryStore as Store>⟧.state self.old).power.on }
        ensures state { let state = ⟦<MemoryStore as Store>⟧.state in
            let old = state self.old in state self.new ≡ record old { power = switched_off old.power } }
        ensures memory { memory_of self.new ≡ memory_of self.old }
        ensures plan { plan_of self.new ≡ plan_of self.old }
    {
        self.on = false;
    }

    fn power_up(&mut self)
        requires off { (⟦<MemoryStore as Store>⟧.state self.old).power.on ≡ false }
        ensures state { let state = ⟦<MemoryStore as Store>⟧.state in
            let old = state self.old in state self.new ≡ record old { power = switched_on old.power } }
        ensures memory { memory_of self.new ≡ memory_of self.old }
        ensures plan { plan_of self.new ≡ plan_of self.old }
    {
        self.on = true;
    }
}
