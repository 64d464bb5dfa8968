// A card's memory.
ghost use Rattle.std.specs.Prelude.{◌≡◌, ◌≤◌, length, option_map, true, false, IsSome, IfSome, IfNone, IfOk};
ghost use Rattle.piv_model.specs.declared.kinds.RefId.TheVariants.{GlobalPin};
ghost use Rattle.piv_model.specs.Memory.{has, reference, key_at, stored, blocks as blocks_of, blocks_used, fits};
ghost use Rattle.piv_model.specs.Changes.{change_reference, one_less, full, renewed, with_object};
ghost use Rattle.piv_model.specs.Starts.{global_of, memory_of_start, SpellsMemory};
ghost use Rattle.memory_store.specs.References.{reference_of};
ghost use Rattle.memory_store.specs.Changes.{changed_by, bytes_put};

use crate::keys::StoredKey;
use crate::reference::Reference;
use crate::value::Value;
use piv_model::limits::{BLOCK, LONGEST_OBJECT, OBJECTS};
use piv_model::{KeyId, NoMemory, ObjectId, RefId, Start, StartGlobal};
use std::alloc::Global;
use std::marker::Model;

// How the memory is to change.
#[derive(Clone, Copy)]
pub(crate) enum Change<'a> {
    Spend(RefId),
    Restore(RefId),
    Renew(RefId, &'a [u8; 8]),
    Unblock(&'a [u8; 8]),
    Put(ObjectId, &'a [u8]),
}

#[derive(Drop)]
pub(crate) struct CardMemory {
    pin: Reference,
    puk: Reference,
    global: Option<Reference>,
    admin: StoredKey,
    card_auth: StoredKey,
    budget: usize,
    objects: Vec<Value>,
}

impl Model for CardMemory {
    ghost use Rattle.std.specs.Prelude.{◌≡◌, option_map, length};
    ghost use Rattle.piv_model.specs.Memory.{Memory};
    ghost use Rattle.memory_store.specs.References.{reference_of};

    ghost Value = { Memory };

    ghost view = { λ a. record {
      pin = reference_of a.pin;
      puk = reference_of a.puk;
      global = option_map reference_of a.global;
      admin = a.admin;
      card_auth = a.card_auth;
      budget = a.budget;
      objects = a.objects.items;
    } };

    ghost invariant = { λ a. length a.objects.items ≡ 33 };
}

// So many bytes in blocks.
pub(crate) fn blocks(length: usize) -> usize
    requires { length ≤ 16384 }
    ensures { result ≡ blocks_of length }
{
    length.div_ceil(BLOCK)
}

fn blocks_of_all(objects: &[Value]) -> usize
    requires { length objects.now ≤ 33 }
    ensures sum { result ≡ blocks_used objects.now }
    ensures few { result ≤ 8448 }
{
    let mut total = 0;
    for value in objects {
        total += blocks(value.as_slice().len());
    }
    total
}

// The objects of a start, each in its place.
fn placed_objects(alloc: Global, start: &Start) -> Result<Vec<Value>, NoMemory>
    requires { SpellsMemory start.now }
    ensures { IfOk result (λ objects. objects.items ≡ (memory_of_start start.now).objects) }
{
    let mut objects = Vec::with_capacity(alloc, OBJECTS)?;
    for place in 0..OBJECTS {
        objects
            .push(Value::new(alloc, start.objects.find(place))?)
            .unwrap();
    }
    Ok(objects)
}

// The Global PIN, if there is one, with a full counter.
fn global_reference(global: StartGlobal) -> Option<Reference>
    ensures { option_map reference_of result ≡ global_of global }
{
    if global.limit == 0 {
        return None;
    }
    Some(Reference::new(global.limit, global.pin))
}

impl CardMemory {
    pub(crate) fn new(alloc: Global, start: &Start) -> Result<CardMemory, NoMemory>
        requires { SpellsMemory start.now }
        ensures { IfOk result (λ memory. memory ≡ memory_of_start start.now) }
    {
        let objects = placed_objects(alloc, start)?;
        Ok(CardMemory {
            pin: Reference::new(start.limit_pin, start.pin),
            puk: Reference::new(start.limit_puk, start.puk),
            global: global_reference(start.global),
            admin: StoredKey::new(&start.admin),
            card_auth: StoredKey::new(&start.card_auth),
            budget: start.budget as usize,
            objects,
        })
    }

    // A reference that the card has.
    pub(crate) fn reference(&self, r: RefId) -> Option<Reference>
        ensures found { IfSome result (λ x. (has self.now r ≡ true) × (reference_of x ≡ reference self.now r)) }
        ensures none { IfNone result (has self.now r ≡ false) }
        ensures own { (r ≡ GlobalPin → ⊥) → IsSome result }
    {
        match r {
            RefId::Pin => Some(self.pin),
            RefId::Puk => Some(self.puk),
            RefId::GlobalPin => self.global,
        }
    }

    fn set_reference(&mut self, r: RefId, x: Reference)
        requires { has self.old r ≡ true }
        ensures { self.new ≡ change_reference r (λ _. reference_of x) self.old }
    {
        match r {
            RefId::Pin => self.pin = x,
            RefId::Puk => self.puk = x,
            RefId::GlobalPin => self.global = Some(x),
        }
    }

    fn spend(&mut self, r: RefId)
        ensures { self.new ≡ change_reference r one_less self.old }
    {
        if let Some(x) = self.reference(r) {
            self.set_reference(r, x.spent());
        }
    }

    fn restore(&mut self, r: RefId)
        ensures { self.new ≡ change_reference r full self.old }
    {
        if let Some(x) = self.reference(r) {
            self.set_reference(r, x.restored());
        }
    }

    fn renew(&mut self, r: RefId, secret: &[u8; 8])
        ensures { self.new ≡ change_reference r (renewed secret.now) self.old }
    {
        if let Some(x) = self.reference(r) {
            self.set_reference(r, x.renewed(secret));
        }
    }

    fn put(&mut self, id: ObjectId, value: &[u8])
        requires { length value.now ≤ 16384 }
        ensures { self.new ≡ with_object id value.now self.old }
    {
        let object = &mut self.objects[id.place() as usize];
        object.set(value);
    }

    pub(crate) fn change(&mut self, change: &Change<'_>)
        requires short { length (bytes_put change.now) ≤ 16384 }
        ensures { self.new ≡ changed_by change.now self.old }
    {
        match *change {
            Change::Spend(r) => self.spend(r),
            Change::Restore(r) => self.restore(r),
            Change::Renew(r, secret) => self.renew(r, secret),
            Change::Unblock(pin) => {
                self.restore(RefId::Puk);
                self.renew(RefId::Pin, pin);
            }
            Change::Put(id, value) => self.put(id, value),
        }
    }

    // An object's value, empty where the object is absent.
    pub(crate) fn value(&self, id: ObjectId) -> &[u8]
        ensures value { result.now ≡ stored self.now id }
        ensures short { length result.now ≤ 16384 }
    {
        self.objects[id.place() as usize].as_slice()
    }

    #[tactic(auto, unfolding(piv_model::specs::Memory::fits))]
    pub(crate) fn has_room(&self, value: &[u8]) -> bool
        ensures room { result ≡ fits self.now value.now }
        ensures short { result ≡ true → length value.now ≤ 16384 }
    {
        value.len() <= LONGEST_OBJECT
            && blocks(value.len()) + blocks_of_all(&self.objects) <= self.budget
    }

    pub(crate) fn key(&self, key: KeyId) -> &StoredKey
        ensures { result.now ≡ key_at self.now key }
    {
        match key {
            KeyId::AdminKey => &self.admin,
            KeyId::CardAuth => &self.card_auth,
        }
    }
}
