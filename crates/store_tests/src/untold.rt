// A device in memory that tells nothing, so that tests may do to it what no contract allows for.
ghost use Rattle.std.specs.Prelude.{◌≡◌, ◌+◌, ◌≤◌, length, true, None, IfOk};
ghost use Rattle.std.proofs.Common.{lit<};

use card_image::layout::DEVICE;
use nvm_device::{Lost, Nvm};
use std::alloc::Global;
use std::test::Fail;

#[derive(Drop)]
pub(crate) struct Untold {
    row: Vec<u8>,
    on: bool,
    ghost size: { length row.items ≡ 1114112 },
}

impl Untold {
    // A device of zero bytes, which is on.
    pub(crate) fn new(alloc: Global) -> Result<Untold, Fail>
        ensures { IfOk result (λ device. (⟦<Untold as Nvm>⟧.state device).power.on ≡ true) }
    {
        Ok(Untold {
            row: vec![in alloc; 0; DEVICE]?,
            on: true,
        })
    }
}

impl Untold {
    ghost use Rattle.std.specs.Prelude.{◌≡◌};

    // Writes these bytes from a place on, past all contracts, where the device has that place.
    pub(crate) fn set(&mut self, place: usize, bytes: &[u8])
        ensures { ⟦<Untold as Nvm>⟧.state self.new ≡ ⟦<Untold as Nvm>⟧.state self.old }
    {
        if place <= DEVICE && bytes.len() <= DEVICE - place {
            copy_in(&mut self.row, place, bytes);
        }
    }

    // Whether these bytes stand from a place on.
    pub(crate) fn holds(&self, place: usize, bytes: &[u8]) -> bool {
        place <= DEVICE
            && bytes.len() <= DEVICE - place
            && &self.row[place..place + bytes.len()] == bytes
    }
}

fn copy_in(row: &mut [u8], place: usize, bytes: &[u8])
    requires { place + length bytes.now ≤ length row.old }
    ensures { length row.new ≡ length row.old }
{
    row[place..place + bytes.len()].copy_from_slice(bytes);
}

impl Nvm for Untold {
    ghost state = { λ u. record {
      size = 1114112;
      bytes = None;
      power = record { on = u.on; losses = 0; span = 0; due = None };
    } };

    ghost row_size = { λ u. tt };

    ghost size_fits = { λ u. lit< tt };

    ghost due_rises = { λ u. tt };

    fn size(&self) -> usize {
        DEVICE
    }

    fn lost(&self) -> u64 {
        0
    }

    fn read(&self, place: usize, out: &mut [u8]) {
        out.copy_from_slice(&self.row[place..place + out.len()]);
    }

    fn write(&mut self, place: usize, bytes: &[u8]) -> Result<(), Lost> {
        copy_in(&mut self.row, place, bytes);
        Ok(())
    }

    fn cut(&mut self) {
        self.on = false;
    }

    fn power(&mut self) {
        self.on = true;
    }
}
