// What a card begins with.
ghost use Rattle.std.specs.Prelude.{◌≡◌, ◌<◌, [], ◌∷◌, ◌++◌, length, map, Some, IfOk, OnOk, OnErr, slice_get};
ghost use Rattle.piv_model.specs.Starts.{value_at};

use crate::no_memory::NoMemory;
use crate::objects::ObjectId;
use std::alloc::Global;
use std::marker::Model;

/// A key: its algorithm, 08, 0A or 0C, and its 16, 24 or 32 bytes, which stand first.
#[derive(Clone, Copy, Debug)]
pub struct KeyBytes {
    pub algorithm: u8,
    pub bytes: [u8; 32],
}

/// A Global PIN with its retry limit, 1 to 15; limit 0 means that there is none.
#[derive(Clone, Copy, Debug)]
pub struct StartGlobal {
    pub limit: u8,
    pub pin: [u8; 8],
}

// An object and its value.
#[derive(Drop)]
struct StartObject {
    id: ObjectId,
    value: Vec<u8>,
}

/// Objects with their values, in the order in which they were added.
#[derive(Drop)]
pub struct StartObjects {
    objects: Vec<StartObject>,
}

impl Model for StartObjects {
    ghost use Rattle.std.specs.Prelude.{List, ℕ, map};

    ghost Value = { List (ℕ × List ℕ) };

    ghost view = { λ a. map (λ o. (o.id, o.value.items)) a.objects.items };
}

/// What a card begins with. Its counters are full. `random` is what its random blocks are made of.
#[derive(Drop)]
pub struct Start {
    pub pin: [u8; 8],
    pub puk: [u8; 8],
    pub limit_pin: u8,
    pub limit_puk: u8,
    pub global: StartGlobal,
    pub admin: KeyBytes,
    pub card_auth: KeyBytes,
    /// In blocks of 64 bytes.
    pub budget: u16,
    pub random: [u8; 32],
    pub objects: StartObjects,
}

fn copied(alloc: Global, bytes: &[u8]) -> Result<Vec<u8>, NoMemory>
    ensures { IfOk result (λ copy. copy.items ≡ bytes.now) }
{
    Ok(bytes.to_vec(alloc)?)
}

fn found_value(objects: &[StartObject], place: usize) -> &[u8]
    ensures { result.now ≡ value_at (map (λ o. (o.id, o.value.items)) objects.now) place }
{
    for object in objects {
        if object.id.place() as usize == place {
            return object.value.as_slice();
        }
    }
    &[]
}

impl StartObjects {
    /// No object.
    pub fn new(alloc: Global) -> StartObjects
        ensures { result ≡ [] }
    {
        StartObjects {
            objects: Vec::new(alloc),
        }
    }

    /// Adds an object with its value, or leaves the objects as they were.
    pub fn push(&mut self, id: ObjectId, value: &[u8]) -> Result<(), NoMemory>
        ensures ok { OnOk result (self.new ≡ self.old ++ (id, value.now) ∷ []) }
        ensures err { OnErr result (self.new ≡ self.old) }
    {
        let value = copied(*self.objects.allocator(), value)?;
        self.objects.push(StartObject { id, value })?;
        Ok(())
    }

    /// How many objects were added.
    pub fn len(&self) -> usize
        ensures { result ≡ length self.now }
    {
        self.objects.len()
    }

    /// The object that was added as number `k`, counted from 0, and its value.
    pub fn value(&self, k: usize) -> (ObjectId, &[u8])
        requires { k < length self.now }
        ensures { slice_get self.now k ≡ Some (result.0, result.1.now) }
    {
        let object = &self.objects[k];
        (object.id, object.value.as_slice())
    }

    /// The value of the object of a place, empty where no object of that place was added.
    pub fn find(&self, place: usize) -> &[u8]
        ensures { result.now ≡ value_at self.now place }
    {
        found_value(&self.objects, place)
    }

    // Equal objects.
    fn copy(&self) -> Result<StartObjects, NoMemory>
        ensures { IfOk result (λ copy. copy ≡ self.now) }
    {
        let mut copy = StartObjects::new(*self.objects.allocator());
        for k in 0..self.len() {
            let (id, value) = self.value(k);
            copy.push(id, value)?;
        }
        Ok(copy)
    }
}

impl Start {
    /// An equal start.
    pub fn copy(&self) -> Result<Start, NoMemory>
        ensures { IfOk result (λ copy. copy ≡ self.now) }
    {
        let objects = self.objects.copy()?;
        Ok(Start {
            pin: self.pin,
            puk: self.puk,
            limit_pin: self.limit_pin,
            limit_puk: self.limit_puk,
            global: self.global,
            admin: self.admin,
            card_auth: self.card_auth,
            budget: self.budget,
            random: self.random,
            objects,
        })
    }
}
