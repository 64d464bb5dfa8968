// A put: new blocks first, then the directory, which its selector makes live.
ghost use Rattle.std.specs.Prelude.{◌≡◌, ◌+◌, ◌<◌, ◌≤◌, ℕ, length, true, take, slice_index, EachIndex, IfSome, OnOk, OnErr};
ghost use Rattle.power_loss.specs.Told.{LostWhereDue};
ghost use Rattle.nvm_slots.specs.Slots.{Kept, Cut};
ghost use Rattle.piv_model.specs.Memory.{blocks as blocks_of, blocks_used};
ghost use Rattle.card_image.specs.Images.{HasObject, MayHaveObject, KeepsObjects, budget_of};
ghost use Rattle.block_store.specs.Blocks.{objects_of, block_form, blocks_read};
ghost use Rattle.block_store.specs.Writes.{FreeToChoose};

use crate::directory::{blocks, directory_twin, enter, lowest_free, read_directory, used_blocks};
use crate::layout::{DIRECTORY, MOST_PARTS};
use crate::writing::write_blocks;
use nvm_device::{Lost, Nvm};

// The lowest blocks that no object has.
fn choose(directory: &[u8; DIRECTORY], count: usize) -> [usize; MOST_PARTS]
    requires { count ≤ 256 }
    ensures size { length result ≡ 256 }
    ensures low { EachIndex result (λ j. slice_index result j < 2048) }
    ensures free { (budget : ℕ) → budget ≤ 2048 → count + blocks_read directory.now ≤ budget
        → FreeToChoose budget directory.now (take count result) }
{
    lowest_free(&used_blocks(directory), count)
}

/// Puts an object in place.
pub(crate) fn put_object<N: Nvm>(nvm: &mut N, place: usize, value: &[u8]) -> Result<(), Lost>
    requires on { (N.state nvm.old).power.on ≡ true }
    requires size { 1114112 ≤ (N.state nvm.old).size }
    requires place { place < 33 }
    requires short { length value.now ≤ 16384 }
    requires keeps { IfSome (N.state nvm.old).bytes (λ row. KeepsObjects block_form row) }
    requires room { IfSome (N.state nvm.old).bytes (λ row.
        blocks_of (length value.now) + blocks_used (objects_of row) ≤ budget_of row) }
    ensures ok { let n = blocks_of (length value.now) + 2 in
        OnOk result (Kept n (HasObject block_form place value.now) (N.state nvm.old) (N.state nvm.new)) }
    ensures lost { let n = blocks_of (length value.now) + 2 in
        OnErr result (Cut n (MayHaveObject block_form place value.now) (N.state nvm.old) (N.state nvm.new)) }
    ensures due { LostWhereDue (blocks_of (length value.now) + 2) (N.state nvm.old).power.due result }
{
    let mut directory = read_directory(nvm);
    let count = blocks(value.len());
    let all = choose(&directory, count);
    let chosen = &all[..count];
    enter(&mut directory, place, value.len(), chosen);
    match write_blocks(nvm, chosen, value) {
        Err(Lost) => Err(Lost),
        Ok(()) => match directory_twin().replace(nvm, &directory) {
            Err(Lost) => Err(Lost),
            Ok(()) => Ok(()),
        },
    }
}
