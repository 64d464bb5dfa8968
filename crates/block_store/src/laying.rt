// The objects of a start, each in one run of blocks.
ghost use Rattle.std.specs.Prelude.{◌≡◌, ◌+◌, ◌*◌, ◌≤◌, ◌<◌, ℕ, List, length, true, OnOk, OnErr};
ghost use Rattle.nvm_device.specs.Device.{DeviceState};
ghost use Rattle.nvm_slots.specs.Laying.{Piece, Laying, Fell, FrontKept};
ghost use Rattle.piv_model.specs.Memory.{blocks_used};
ghost use Rattle.piv_model.specs.Starts.{value_at};
ghost use Rattle.card_image.specs.Laying.{objects_area, values, Done, LaidObjects};
ghost use Rattle.block_store.specs.Blocks.{block_form, next_in};
ghost use Rattle.block_store.specs.Runs.{run, IsFresh, run_pieces};

use crate::directory::{blocks, put_number};
use crate::layout::{DIRECTORY, FIRST_BLOCK, NEXTS};
use card_image::lay_value;
use card_image::layout::HEADER;
use nvm_device::{Lost, Nvm};
use nvm_slots::lay;
use piv_model::StartObjects;
use piv_model::limits::{BLOCK, MOST_BLOCKS, OBJECTS};

// Each block names the one behind it.
fn linked_directory() -> [u8; DIRECTORY]
    ensures size { length result ≡ 4228 }
    ensures nexts { (b : ℕ) → b < 2047 → next_in result b ≡ b + 1 }
{
    let mut directory = [0; DIRECTORY];
    for block in 0..MOST_BLOCKS - 1 {
        put_number(&mut directory, NEXTS + 2 * block, block + 1);
    }
    directory
}

fn fresh_directory(objects: &StartObjects) -> [u8; DIRECTORY]
    requires short { (k : ℕ) → k < 33 → length (value_at objects.now k) ≤ 16384 }
    requires room { run objects.now 33 ≤ 2048 }
    ensures { IsFresh objects.now 33 result }
{
    let mut directory = linked_directory();
    let mut first = 0;
    for place in 0..OBJECTS {
        let value = objects.find(place);
        put_number(&mut directory, 4 * place, value.len());
        put_number(&mut directory, 4 * place + 2, first);
        let count = blocks(value.len());
        first += count;
    }
    directory
}

// Lays the values behind the directory.
fn lay_values<N: Nvm>(nvm: &mut N, objects: &StartObjects) -> Result<(), Lost>
    requires on { (N.state nvm.old).power.on ≡ true }
    requires size { 1114112 ≤ (N.state nvm.old).size }
    requires short { (k : ℕ) → k < 33 → length (value_at objects.now k) ≤ 16384 }
    requires room { run objects.now 33 ≤ 2048 }
    ensures laid { OnOk result ((pieces : List Piece) (s : DeviceState)
        → Laying objects_area pieces 8768 s (N.state nvm.old)
        → Laying objects_area (run_pieces objects.now pieces 33) 139840 s (N.state nvm.new)) }
    ensures fell { OnErr result ((pieces : List Piece) (s : DeviceState)
        → Laying objects_area pieces 8768 s (N.state nvm.old)
        → Fell (FrontKept objects_area) s (N.state nvm.new)) }
{
    let mut first = 0;
    for place in 0..OBJECTS {
        let value = objects.find(place);
        lay_value(nvm, FIRST_BLOCK + BLOCK * first, value)?;
        let count = blocks(value.len());
        first += count;
    }
    Ok(())
}

/// Lays the selector, the directory and the values.
pub(crate) fn lay_runs<N: Nvm>(nvm: &mut N, objects: &StartObjects) -> Result<(), Lost>
    requires on { (N.state nvm.old).power.on ≡ true }
    requires size { 1114112 ≤ (N.state nvm.old).size }
    requires short { (k : ℕ) → k < 33 → length (value_at objects.now k) ≤ 16384 }
    requires room { blocks_used (values objects.now) ≤ 2048 }
    ensures laid { OnOk result (Done (LaidObjects block_form objects.now) (N.state nvm.old) (N.state nvm.new)) }
    ensures fell { OnErr result (Fell (FrontKept objects_area) (N.state nvm.old) (N.state nvm.new)) }
{
    let directory = fresh_directory(objects);
    match lay(nvm, HEADER, &[0]) {
        Err(Lost) => Err(Lost),
        Ok(()) => match lay(nvm, HEADER + 1, &directory) {
            Err(Lost) => Err(Lost),
            Ok(()) => match lay_values(nvm, objects) {
                Err(Lost) => Err(Lost),
                Ok(()) => Ok(()),
            },
        },
    }
}
