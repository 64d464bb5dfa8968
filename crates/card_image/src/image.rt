// A store of a card's memory on a device, generic over the form of its objects.
ghost use Rattle.std.specs.Prelude.{◌≡◌, ◌≤◌, IfSome};
ghost use Rattle.std.proofs.Props.{props};
ghost use Rattle.card_image.specs.Images.{IsImage, HasKeys, store_state};

use crate::header::{has_first_layout, read_references, replace_references};
use crate::keys::read_key;
use crate::looking::{is_blank, is_image};
use crate::migrating::migrate_references;
use crate::objects::Objects;
use crate::personalising::lay_start;
use crate::references::add_global;
use aes_block::Key;
use nvm_device::Nvm;
use piv_model::{Found, KeyId, Lost, Start, StartGlobal, Store};
use std::marker::PhantomData;

/// A card's memory on a device: a header of 256 bytes, and behind it objects in one form.
#[derive(Drop)]
pub struct Image<N: Nvm, O: Objects> {
    pub(crate) nvm: N,
    pub(crate) admin: Key,
    pub(crate) card_auth: Key,
    form: PhantomData<O>,
    ghost size: { 1114112 ≤ (N.state nvm).size },
    ghost stands: { IfSome (N.state nvm).bytes (λ row. IsImage O.form row) } by { Prim.hlevel props },
    ghost keys: { IfSome (store_state O.form (N.state nvm)).mem (λ m. HasKeys admin card_auth m) } by { Prim.hlevel props },
}

impl<N: Nvm, O: Objects> Image<N, O> {
    ghost use Rattle.std.specs.Prelude.{◌<◌, true, false, None, IsTrue, OnOk, OnErr, IfOk, IfErr, is_some, length};
    ghost use Rattle.power_loss.specs.Told.{LostWhereDue};
    ghost use Rattle.nvm_slots.specs.Laying.{Fell};
    ghost use Rattle.piv_model.specs.Memory.{fits};
    ghost use Rattle.piv_model.specs.Changes.{with_object};
    ghost use Rattle.piv_model.specs.Sound.{IsSound, may_stand};
    ghost use Rattle.piv_model.specs.Starts.{memory_of_start, global_of, SpellsMemory};
    ghost use Rattle.piv_model.specs.Stores.{changed, CutShort};
    ghost use Rattle.piv_model.specs.Forms.{is_pin};
    ghost use Rattle.card_image.specs.Header.{with_references, with_global};
    ghost use Rattle.card_image.specs.Device.{device_of};
    ghost use Rattle.card_image.specs.Laying.{Done, NoOther, Personal};
    ghost use Rattle.card_image.specs.Looking.{Looks, IfCard};
    ghost use Rattle.card_image.specs.Images.{memory_of, layout_of, FitsLayout, StandsOn};

    /// What stands on a device.
    pub fn look(nvm: N) -> Found<Image<N, O>, N>
        requires on { (N.state nvm).power.on ≡ true }
        requires size { 1114112 ≤ (N.state nvm).size }
        ensures found { Looks O.form N.state device_of (N.state nvm) result }
        ensures stands { let state = ⟦<Image<N, O> as Store>⟧.state in
            IfCard result (λ store. StandsOn O.form (N.state nvm) (state store)) }
    {
        if is_blank(&nvm) {
            return Found::Blank(nvm);
        }
        if is_image::<N, O>(&nvm) {
            return Found::Card(Image::adopt(nvm));
        }
        Found::BadImage(nvm)
    }

    /// The store of a device whose bytes stand for a memory. It writes nothing.
    pub fn adopt(nvm: N) -> Image<N, O>
        requires on { (N.state nvm).power.on ≡ true }
        requires size { 1114112 ≤ (N.state nvm).size }
        requires stands { IfSome (N.state nvm).bytes (λ row. IsImage O.form row) }
        ensures device { device_of result ≡ nvm }
        ensures stands { StandsOn O.form (N.state nvm) (⟦<Image<N, O> as Store>⟧.state result) }
    {
        let admin = read_key(&nvm, KeyId::AdminKey);
        let card_auth = read_key(&nvm, KeyId::CardAuth);
        Image {
            nvm,
            admin,
            card_auth,
            form: PhantomData,
        }
    }

    /// Hands the device back.
    pub fn into_inner(self) -> N
        ensures device { result ≡ device_of self }
        ensures stands { StandsOn O.form (N.state result) (⟦<Image<N, O> as Store>⟧.state self) }
    {
        let Image {
            nvm,
            admin: _,
            card_auth: _,
            form: _,
        } = self;
        nvm
    }

    /// The number of the layout, 1 or 2.
    pub fn layout(&self) -> u8
        requires on { (N.state (device_of self.now)).power.on ≡ true }
        ensures { IfSome (N.state (device_of self.now)).bytes (λ row. result ≡ layout_of row) }
    {
        if has_first_layout(&self.nvm) { 1 } else { 2 }
    }

    /// A store of what a card begins with, in layout 2. An `Err` hands the device back, off.
    pub fn personalise(nvm: N, start: &Start) -> Result<Image<N, O>, N>
        requires on { (N.state nvm).power.on ≡ true }
        requires size { 1114112 ≤ (N.state nvm).size }
        requires spells { SpellsMemory start.now }
        ensures ok { IfOk result (λ s. Done (Personal O.form false start.now) (N.state nvm) (N.state (device_of s))) }
        ensures stands { IfOk result (λ s. StandsOn O.form (N.state (device_of s)) (⟦<Image<N, O> as Store>⟧.state s)) }
        ensures fell { IfErr result (λ device. Fell (NoOther O.form start.now) (N.state nvm) (N.state device)) }
    {
        Image::personalise_in(nvm, false, start)
    }

    /// As `personalise`, in layout 1, which has no Global PIN.
    pub fn personalise_layout1(nvm: N, start: &Start) -> Result<Image<N, O>, N>
        requires on { (N.state nvm).power.on ≡ true }
        requires size { 1114112 ≤ (N.state nvm).size }
        requires spells { SpellsMemory start.now }
        requires none { start.now.global.limit ≡ 0 }
        ensures ok { IfOk result (λ s. Done (Personal O.form true start.now) (N.state nvm) (N.state (device_of s))) }
        ensures stands { IfOk result (λ s. StandsOn O.form (N.state (device_of s)) (⟦<Image<N, O> as Store>⟧.state s)) }
        ensures fell { IfErr result (λ device. Fell (NoOther O.form start.now) (N.state nvm) (N.state device)) }
    {
        Image::personalise_in(nvm, true, start)
    }

    fn personalise_in(nvm: N, first: bool, start: &Start) -> Result<Image<N, O>, N>
        requires on { (N.state nvm).power.on ≡ true }
        requires size { 1114112 ≤ (N.state nvm).size }
        requires spells { SpellsMemory start.now }
        requires none { first ≡ true → (memory_of_start start.now).global ≡ None }
        ensures ok { IfOk result (λ s. Done (Personal O.form first start.now) (N.state nvm) (N.state (device_of s))) }
        ensures stands { IfOk result (λ s. StandsOn O.form (N.state (device_of s)) (⟦<Image<N, O> as Store>⟧.state s)) }
        ensures fell { IfErr result (λ device. Fell (NoOther O.form start.now) (N.state nvm) (N.state device)) }
    {
        let mut nvm = nvm;
        match lay_start::<N, O>(&mut nvm, first, start) {
            Ok(()) => Ok(Image::adopt(nvm)),
            Err(nvm_device::Lost) => Err(nvm),
        }
    }

    /// Carries the references over to layout 2, with a Global PIN, in three writes. The card has layout 1.
    pub fn migrate(&mut self, global: &StartGlobal) -> Result<(), Lost>
        requires on { (N.state (device_of self.old)).power.on ≡ true }
        requires first { IfSome (N.state (device_of self.old)).bytes (λ row. layout_of row ≡ 1) }
        requires limit { global.now.limit ≤ 15 }
        requires form { 0 < global.now.limit → IsTrue (is_pin global.now.pin) }
        ensures ok { let state = ⟦<Image<N, O> as Store>⟧.state in
            let change = with_global (global_of global.now) in
            OnOk result (state self.new ≡ changed 3 change (state self.old)) }
        ensures second { OnOk result (IfSome (N.state (device_of self.new)).bytes (λ row. layout_of row ≡ 2)) }
        ensures lost { let state = ⟦<Image<N, O> as Store>⟧.state in
            let change = with_global (global_of global.now) in
            OnErr result (CutShort 3 change (state self.old) (state self.new)) }
        ensures due { LostWhereDue 3 (⟦<Image<N, O> as Store>⟧.state self.old).power.due result }
    {
        let mut bytes = read_references(&self.nvm);
        add_global(&mut bytes, global.limit, &global.pin);
        match migrate_references(&mut self.nvm, &bytes) {
            Ok(()) => Ok(()),
            Err(nvm_device::Lost) => Err(Lost),
        }
    }

    // Puts other references in place.
    pub(crate) fn change_references(&mut self, bytes: &[u8; 30]) -> Result<(), Lost>
        requires on { (N.state (device_of self.old)).power.on ≡ true }
        requires sound { IfSome (N.state (device_of self.old)).bytes (λ row.
            IsSound (with_references bytes.now (memory_of O.form row))) }
        requires layout { IfSome (N.state (device_of self.old)).bytes (λ row. FitsLayout bytes.now row) }
        ensures ok { let state = ⟦<Image<N, O> as Store>⟧.state in
            OnOk result (state self.new ≡ changed 2 (with_references bytes.now) (state self.old)) }
        ensures lost { let state = ⟦<Image<N, O> as Store>⟧.state in
            OnErr result (CutShort 2 (with_references bytes.now) (state self.old) (state self.new)) }
        ensures due { LostWhereDue 2 (N.state (device_of self.old)).power.due result }
    {
        match replace_references(&mut self.nvm, bytes) {
            Ok(()) => Ok(()),
            Err(nvm_device::Lost) => Err(Lost),
        }
    }

    // Puts a value that has room in place.
    pub(crate) fn put_fitting(&mut self, place: usize, value: &[u8]) -> Result<(), Lost>
        requires on { (N.state (device_of self.old)).power.on ≡ true }
        requires place { place < 33 }
        requires short { length value.now ≤ 16384 }
        requires fits { IfSome (N.state (device_of self.old)).bytes (λ row.
            fits (memory_of O.form row) value.now ≡ true) }
        requires form { IfSome (N.state (device_of self.old)).bytes (λ row.
            IsTrue (may_stand (is_some (memory_of O.form row).global) place value.now)) }
        ensures ok { let state = ⟦<Image<N, O> as Store>⟧.state in
            let n = O.form.put_cost (length value.now) in
            OnOk result (state self.new ≡ changed n (with_object place value.now) (state self.old)) }
        ensures lost { let state = ⟦<Image<N, O> as Store>⟧.state in
            let n = O.form.put_cost (length value.now) in
            OnErr result (CutShort n (with_object place value.now) (state self.old) (state self.new)) }
        ensures due { let n = O.form.put_cost (length value.now) in
            LostWhereDue n (N.state (device_of self.old)).power.due result }
    {
        match O::put(&mut self.nvm, place, value) {
            Ok(()) => Ok(()),
            Err(nvm_device::Lost) => Err(Lost),
        }
    }
}
