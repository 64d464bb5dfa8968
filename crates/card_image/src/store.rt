// The image as a store.
use crate::comparing::has_value;
use crate::header::read_references;
use crate::image::Image;
use crate::objects::Objects;
use crate::references::{
    fill_in, has_secret, is_there, renew_in, spend_in, tries_place, unblock_in,
};
use crate::room::has_room;
use nvm_device::Nvm;
use piv_model::{KeyId, Lost, ObjectId, PutFault, RefId, Store};

/// A try that was spent on a store on a device.
#[must_use]
pub struct Ticket {
    reference: RefId,
}

impl<N: Nvm, O: Objects> Store for Image<N, O> {
    ghost use Rattle.card_image.specs.Images.{store_state};
    ghost use Rattle.card_image.specs.Laws.{store_is_sound};

    type Ticket = Ticket;

    ghost state = { λ s. store_state O.form (N.state s.nvm) };

    ghost spent_of = { λ t. t.reference };

    ghost put_cost = { O.form.put_cost };

    ghost due_rises = { λ s. N.due_rises s.nvm };

    ghost sound = { λ s. store_is_sound O.form (N.state s.nvm) s.stands };

    fn has(&self, r: RefId) -> bool {
        is_there(&read_references(&self.nvm), r)
    }

    fn tries(&self, r: RefId) -> u8 {
        read_references(&self.nvm)[tries_place(r)].min(15)
    }

    fn spend(&mut self, r: RefId) -> Result<Ticket, Lost> {
        let mut bytes = read_references(&self.nvm);
        spend_in(&mut bytes, r);
        match self.change_references(&bytes) {
            Ok(()) => Ok(Ticket { reference: r }),
            Err(Lost) => Err(Lost),
        }
    }

    fn matches(&self, t: Ticket, candidate: &[u8; 8]) -> bool {
        let Ticket { reference } = t;
        has_secret(&read_references(&self.nvm), reference, candidate)
    }

    fn give_up(t: Ticket) {
        let Ticket { reference: _ } = t;
    }

    fn restore(&mut self, r: RefId) -> Result<(), Lost> {
        let mut bytes = read_references(&self.nvm);
        fill_in(&mut bytes, r);
        match self.change_references(&bytes) {
            Ok(()) => Ok(()),
            Err(Lost) => Err(Lost),
        }
    }

    fn renew(&mut self, r: RefId, new: &[u8; 8]) -> Result<(), Lost> {
        let mut bytes = read_references(&self.nvm);
        renew_in(&mut bytes, r, new);
        match self.change_references(&bytes) {
            Ok(()) => Ok(()),
            Err(Lost) => Err(Lost),
        }
    }

    fn unblock(&mut self, new: &[u8; 8]) -> Result<(), Lost> {
        let mut bytes = read_references(&self.nvm);
        unblock_in(&mut bytes, new);
        match self.change_references(&bytes) {
            Ok(()) => Ok(()),
            Err(Lost) => Err(Lost),
        }
    }

    fn put(&mut self, id: ObjectId, value: &[u8]) -> Result<(), PutFault> {
        if !has_room::<N, O>(&self.nvm, value) {
            return Err(PutFault::TooLarge);
        }
        match self.put_fitting(id.place() as usize, value) {
            Ok(()) => Ok(()),
            Err(Lost) => Err(PutFault::Lost),
        }
    }

    fn length(&self, id: ObjectId) -> usize {
        O::length(&self.nvm, id.place() as usize)
    }

    fn fill(&self, id: ObjectId, out: &mut [u8]) {
        O::fill(&self.nvm, id.place() as usize, out);
    }

    fn same(&self, id: ObjectId, value: &[u8]) -> bool {
        has_value::<N, O>(&self.nvm, id.place() as usize, value)
    }

    fn algorithm(&self, key: KeyId) -> u8 {
        match key {
            KeyId::AdminKey => self.admin.algorithm(),
            KeyId::CardAuth => self.card_auth.algorithm(),
        }
    }

    fn encipher(&self, key: KeyId, block: &[u8; 16]) -> [u8; 16] {
        match key {
            KeyId::AdminKey => self.admin.encrypt(block),
            KeyId::CardAuth => self.card_auth.encrypt(block),
        }
    }

    fn lost(&self) -> u64 {
        self.nvm.lost()
    }

    fn cut(&mut self) {
        self.nvm.cut();
    }

    fn power_up(&mut self) {
        self.nvm.power();
    }
}
