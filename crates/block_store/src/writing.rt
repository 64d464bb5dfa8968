// The blocks of a value, one write each.
ghost use Rattle.std.specs.Prelude.{◌≡◌, ◌+◌, ◌*◌, ◌<◌, ◌≤◌, length, true, slice_index, EachIndex, OnOk, OnErr};
ghost use Rattle.power_loss.specs.Told.{LostWhereDue};
ghost use Rattle.nvm_slots.specs.Slots.{Kept, Cut};
ghost use Rattle.piv_model.specs.Memory.{blocks as blocks_of};
ghost use Rattle.block_store.specs.Writes.{KeepsOthers, WroteParts};

use crate::layout::FIRST_BLOCK;
use nvm_device::{Lost, Nvm};
use piv_model::limits::BLOCK;

/// Writes a value into these blocks.
pub(crate) fn write_blocks<N: Nvm>(nvm: &mut N, chosen: &[usize], value: &[u8]) -> Result<(), Lost>
    requires on { (N.state nvm.old).power.on ≡ true }
    requires size { 1114112 ≤ (N.state nvm.old).size }
    requires short { length value.now ≤ 16384 }
    requires count { length chosen.now ≡ blocks_of (length value.now) }
    requires low { EachIndex chosen.now (λ j. slice_index chosen.now j < 2048) }
    ensures ok { let n = length chosen.now in
        OnOk result (Kept n (WroteParts n chosen.now value.now) (N.state nvm.old) (N.state nvm.new)) }
    ensures lost { OnErr result (Cut (length chosen.now) (KeepsOthers chosen.now) (N.state nvm.old) (N.state nvm.new)) }
    ensures due { LostWhereDue (length chosen.now) (N.state nvm.old).power.due result }
    ensures on { OnOk result ((N.state nvm.new).power.on ≡ true) }
    ensures size { OnOk result ((N.state nvm.new).size ≡ (N.state nvm.old).size) }
{
    for (j, block) in chosen.iter().enumerate() {
        let from = BLOCK * j;
        let to = value.len().min(from + BLOCK);
        nvm.write(FIRST_BLOCK + BLOCK * *block, &value[from..to])?;
    }
    Ok(())
}
