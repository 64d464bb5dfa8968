// A row of bytes in memory, which never loses power by itself.
ghost use Rattle.std.specs.Prelude.{◌≡◌, ◌+◌, ◌^◌, ◌<◌, ◌≤◌, [], length, Some, vec_capacity, IfOk};
ghost use Rattle.std.proofs.Common.{lit≤};
ghost use Rattle.nvm_device.specs.Bytes.{bytes_at, overwrite, filled_up};
ghost use Rattle.nvm_device.specs.Device.{blank};
ghost use Rattle.nvm_device.specs.Laws.{length-filled_up};

use crate::{Lost, Nvm};
use std::alloc::Global;

/// Memory was refused.
#[derive(Clone, Copy, Debug, PartialEq, Eq)]
pub struct NoMemory;

/// A device in memory. It takes its memory when it is made.
// The row has room for all bytes and holds those up to the last one that was written; the others are zero.
#[derive(Drop)]
pub struct MemNvm {
    row: Vec<u8>,
    size: usize,
    on: bool,
    ghost within: { length row.items ≤ size },
    ghost room: { size ≤ vec_capacity row },
    ghost fits: { size < 2 ^ 64 },
}

impl MemNvm {
    /// A device of so many zero bytes, which is on.
    pub fn new(alloc: Global, size: usize) -> Result<MemNvm, NoMemory>
        ensures { IfOk result (λ device. ⟦<MemNvm as Nvm>⟧.state device ≡ blank size) }
    {
        match Vec::with_capacity(alloc, size) {
            Ok(row) => Ok(MemNvm {
                row,
                size,
                on: true,
            }),
            Err(_) => Err(NoMemory),
        }
    }
}

// Copies the bytes from a place on. Behind the row all are zero.
fn copy_out(row: &[u8], place: usize, out: &mut [u8])
    ensures { out.new ≡ filled_up (bytes_at row.now place (length out.old)) (length out.old) }
{
    let stored = &row[place.min(row.len())..];
    let count = stored.len().min(out.len());
    out[..count].copy_from_slice(&stored[..count]);
    out[count..].fill(0);
}

// Fills a row up to this size, for which it has room.
fn fill_up(row: &mut Vec<u8>, size: usize)
    requires { size ≤ vec_capacity row.old }
    ensures items { row.new.items ≡ filled_up row.old.items size }
    ensures capacity { vec_capacity row.old ≤ vec_capacity row.new }
{
    if row.len() < size {
        row.resize(size, 0).unwrap();
    }
}

fn copy_in(row: &mut [u8], place: usize, bytes: &[u8])
    requires { place + length bytes.now ≤ length row.old }
    ensures { row.new ≡ overwrite row.old place bytes.now }
{
    row[place..place + bytes.len()].copy_from_slice(bytes);
}

impl Nvm for MemNvm {
    ghost state = { λ m. record {
      size = m.size;
      bytes = Some (filled_up m.row.items m.size);
      power = record { on = m.on; losses = 0; span = 0; due = Some [] };
    } };

    ghost row_size = { λ m. length-filled_up m.row.items m.size m.within };

    ghost size_fits = { λ m. m.fits };

    ghost due_rises = { λ m. (tt, lit≤ tt) };

    fn size(&self) -> usize {
        self.size
    }

    fn lost(&self) -> u64 {
        0
    }

    fn read(&self, place: usize, out: &mut [u8]) {
        copy_out(&self.row, place, out);
    }

    fn write(&mut self, place: usize, bytes: &[u8]) -> Result<(), Lost> {
        fill_up(&mut self.row, place + bytes.len());
        copy_in(&mut self.row, place, bytes);
        Ok(())
    }

    fn cut(&mut self) {
        self.on = false;
    }

    fn power(&mut self) {
        self.on = true;
    }
}
