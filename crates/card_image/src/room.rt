// The room that is left for objects.
ghost use Rattle.std.specs.Prelude.{◌≡◌, ◌+◌, ◌≤◌, length, true, IfSome};
ghost use Rattle.piv_model.specs.Memory.{blocks as blocks_of, blocks_used, fits};
ghost use Rattle.card_image.specs.Images.{budget_of, memory_of, IsImage, IfKeeps};

use crate::objects::Objects;
use nvm_device::Nvm;
use piv_model::limits::{BLOCK, LONGEST_OBJECT, OBJECTS};

// How many blocks.
fn blocks(n: usize) -> usize
    requires { n ≤ 16384 }
    ensures blocks { result ≡ blocks_of n }
    ensures few { result ≤ 256 }
{
    n.div_ceil(BLOCK)
}

// The blocks of all objects.
pub(crate) fn blocks_of_all<N: Nvm, O: Objects>(nvm: &N) -> usize
    requires on { (N.state nvm.now).power.on ≡ true }
    requires size { 1114112 ≤ (N.state nvm.now).size }
    ensures told { IfKeeps O.form (N.state nvm.now) (λ row. result ≡ blocks_used (O.form.objects_of row)) }
    ensures few { result ≤ 8448 }
{
    let mut total = 0;
    for place in 0..OBJECTS {
        total += blocks(O::length(nvm, place));
    }
    total
}

// The budget.
#[tactic(auto, unfolding(crate::specs::Header::header_of))]
pub(crate) fn read_budget<N: Nvm>(nvm: &N) -> usize
    requires on { (N.state nvm.now).power.on ≡ true }
    requires size { 1114112 ≤ (N.state nvm.now).size }
    ensures { IfSome (N.state nvm.now).bytes (λ row. result ≡ budget_of row) }
{
    let mut out = [0; 8];
    nvm.read(0, &mut out);
    256 * out[6] as usize + out[7] as usize
}

/// Whether a value has room beside all objects present.
pub(crate) fn has_room<N: Nvm, O: Objects>(nvm: &N, value: &[u8]) -> bool
    requires on { (N.state nvm.now).power.on ≡ true }
    requires size { 1114112 ≤ (N.state nvm.now).size }
    ensures told { IfSome (N.state nvm.now).bytes (λ row. IsImage O.form row
        → result ≡ fits (memory_of O.form row) value.now) }
    ensures short { result ≡ true → length value.now ≤ 16384 }
{
    if value.len() > LONGEST_OBJECT {
        return false;
    }
    blocks(value.len()) + blocks_of_all::<N, O>(nvm) <= read_budget(nvm)
}
