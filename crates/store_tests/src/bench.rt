// A store under test, which tells nothing and is on between its calls.
ghost use Rattle.std.specs.Prelude.{◌≡◌, true, false, None, Err};
ghost use Rattle.piv_model.specs.declared.store.PutFault.TheVariants.{Lost as PowerLost};

use crate::untold::Untold;
use card_image::{Image, Objects};
use nvm_device::Nvm;
use piv_model::{KeyId, Lost, ObjectId, PutFault, RefId, Store, object_by_tag};
use std::alloc::Global;
use std::test::Fail;
use test_starts::GLOBAL_PIN;

pub(crate) const PIN: [u8; 8] = *b"123456\xff\xff";

pub(crate) const NEW_PIN: [u8; 8] = *b"6543210\xff";

pub(crate) const PUK: [u8; 8] = *b"12345678";

pub(crate) const LOST: Result<(), PutFault> = Err(PutFault::Lost);

pub(crate) const TOO_LARGE: Result<(), PutFault> = Err(PutFault::TooLarge);

#[derive(Clone, Copy, Debug)]
pub(crate) enum Call<'a> {
    Spend(RefId),
    Restore(RefId),
    // The new secret is NEW_PIN.
    Renew(RefId),
    Unblock,
    Put(ObjectId, &'a [u8]),
}

#[derive(Drop)]
pub(crate) struct Bench<S: Store> {
    pub(crate) store: S,
    ghost on: { (S.state store).power.on ≡ true },
    ghost untold: { (S.state store).mem ≡ None },
}

// The power is off behind a call that is lost.
#[tactic(auto, unfolding(piv_model::specs::Forms::is_pin))]
pub(crate) fn made<S: Store>(store: &mut S, call: &Call<'_>) -> Result<(), PutFault>
    requires on { (S.state store.old).power.on ≡ true }
    requires untold { (S.state store.old).mem ≡ None }
    ensures on { (result ≡ Err PowerLost → ⊥) → (S.state store.new).power.on ≡ true }
    ensures off { result ≡ Err PowerLost → (S.state store.new).power.on ≡ false }
    ensures untold { (S.state store.new).mem ≡ None }
{
    match *call {
        Call::Spend(r) => match store.spend(r) {
            Ok(ticket) => {
                S::give_up(ticket);
                Ok(())
            }
            Err(Lost) => Err(PutFault::Lost),
        },
        Call::Restore(r) => store.restore(r).or(Err(PutFault::Lost)),
        Call::Renew(r) => store.renew(r, &NEW_PIN).or(Err(PutFault::Lost)),
        Call::Unblock => store.unblock(&NEW_PIN).or(Err(PutFault::Lost)),
        Call::Put(id, value) => store.put(id, value),
    }
}

// Makes the call. Where that lost power, or else behind a cut, the power is on again.
fn made_on<S: Store>(store: &mut S, call: &Call<'_>) -> Result<(), PutFault>
    requires on { (S.state store.old).power.on ≡ true }
    requires untold { (S.state store.old).mem ≡ None }
    ensures on { (S.state store.new).power.on ≡ true }
    ensures untold { (S.state store.new).mem ≡ None }
{
    let answer = made(store, call);
    if answer != LOST {
        store.cut();
    }
    store.power_up();
    answer
}

impl<S: Store> Bench<S> {
    // A store under test.
    pub(crate) fn new(store: S) -> Bench<S>
        requires on { (S.state store).power.on ≡ true }
        requires untold { (S.state store).mem ≡ None }
    {
        Bench { store }
    }

    // Makes the call, and says what it answered. The power was off since.
    pub(crate) fn make(&mut self, call: &Call<'_>) -> Result<(), PutFault> {
        made_on(&mut self.store, call)
    }

    // Whether this is the secret of a reference that the card has. No loss comes.
    pub(crate) fn has_secret(&mut self, r: RefId, candidate: &[u8; 8]) -> Result<bool, Fail> {
        if !self.store.has(r) {
            return Ok(false);
        }
        match self.make(&Call::Restore(r)) {
            Ok(()) => compared(&mut self.store, r, candidate),
            Err(_) => Err("lost")?,
        }
    }

    // An object's value, as it is read.
    pub(crate) fn value(&self, alloc: Global, id: ObjectId) -> Result<Vec<u8>, Fail> {
        let mut value = vec![in alloc; 0xEE; self.store.length(id)]?;
        self.store.fill(id, &mut value);
        Ok(value)
    }

    // Whether an object is read as this value, and is the same as it and as no value one byte shorter or longer.
    pub(crate) fn has_exactly(
        &self,
        alloc: Global,
        id: ObjectId,
        value: &[u8],
    ) -> Result<bool, Fail> {
        let mut longer = value.to_vec(alloc)?;
        longer.push(0)?;
        let shorter = &value[..value.len().saturating_sub(1)];
        Ok(
            self.value(alloc, id)?.as_slice() == value
                && self.store.same(id, value)
                && !self.store.same(id, &longer)
                && self.store.same(id, shorter) == value.is_empty(),
        )
    }

    // The algorithm of a key, and a block enciphered under it.
    pub(crate) fn enciphered(&self, key: KeyId, block: &[u8; 16]) -> (u8, [u8; 16]) {
        (self.store.algorithm(key), self.store.encipher(key, block))
    }

    // How often power was lost within a call.
    pub(crate) fn losses(&self) -> u64 {
        self.store.lost()
    }

    // The tries of PIN and PUK.
    pub(crate) fn tries(&self) -> [u8; 2] {
        [self.store.tries(RefId::Pin), self.store.tries(RefId::Puk)]
    }

    // What the reading calls answer, one behind the other.
    pub(crate) fn reading(&self, alloc: Global) -> Result<Vec<u8>, Fail> {
        let mut reading = Vec::new(alloc);
        for r in [RefId::Pin, RefId::Puk, RefId::GlobalPin] {
            let tries = if self.store.has(r) {
                self.store.tries(r)
            } else {
                0xFF
            };
            reading.push(tries)?;
        }
        for key in [KeyId::AdminKey, KeyId::CardAuth] {
            reading.push(self.store.algorithm(key))?;
            reading.extend_from_slice(&self.store.encipher(key, &[0x5A; 16]))?;
        }
        self.read_objects(alloc, &mut reading)?;
        Ok(reading)
    }

    fn read_objects(&self, alloc: Global, reading: &mut Vec<u8>) -> Result<(), Fail> {
        for last in 0x01..=0x21 {
            if let Some(id) = object_by_tag(&[0x5F, 0xC1, last]) {
                self.read_object(alloc, id, reading)?;
            }
        }
        self.read_object(alloc, ObjectId::discovery(), reading)
    }

    // A value, and whether the store says that the object is the same as it.
    fn read_object(&self, alloc: Global, id: ObjectId, reading: &mut Vec<u8>) -> Result<(), Fail> {
        let value = self.value(alloc, id)?;
        reading.push(id.place())?;
        reading.push(u8::from(self.store.same(id, &value)))?;
        reading.extend_from_slice(&value)?;
        Ok(())
    }
}

impl<O: Objects> Bench<Image<Untold, O>> {
    // The device behind the store.
    pub(crate) fn into_inner(self) -> Untold
        ensures { (⟦<Untold as Nvm>⟧.state result).power.on ≡ true }
    {
        let Bench { store } = self;
        store.into_inner()
    }
}

fn compared<S: Store>(store: &mut S, r: RefId, candidate: &[u8; 8]) -> Result<bool, Fail>
    requires on { (S.state store.old).power.on ≡ true }
    requires untold { (S.state store.old).mem ≡ None }
    ensures on { (S.state store.new).power.on ≡ true }
    ensures untold { (S.state store.new).mem ≡ None }
{
    match store.spend(r) {
        Ok(ticket) => Ok(store.matches(ticket, candidate)),
        Err(Lost) => {
            store.power_up();
            Err("lost")?
        }
    }
}

// Whether two stores answer all reading calls alike.
pub(crate) fn read_alike<S: Store, T: Store>(
    alloc: Global,
    one: &Bench<S>,
    other: &Bench<T>,
) -> Result<bool, Fail> {
    let reading = other.reading(alloc)?;
    Ok(one.reading(alloc)?.as_slice() == reading.as_slice())
}

// Whether two stores have the same secrets. Their counters change.
pub(crate) fn have_same_secrets<S: Store, T: Store>(
    one: &mut Bench<S>,
    other: &mut Bench<T>,
) -> Result<bool, Fail> {
    for r in [RefId::Pin, RefId::Puk, RefId::GlobalPin] {
        for secret in [PIN, NEW_PIN, PUK, GLOBAL_PIN] {
            if one.has_secret(r, &secret)? != other.has_secret(r, &secret)? {
                return Ok(false);
            }
        }
    }
    Ok(true)
}
