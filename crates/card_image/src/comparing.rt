// Comparing an object with a value, 64 bytes at a time.
ghost use Rattle.std.specs.Prelude.{◌≡◌, ◌+◌, ◌*◌, ◌≤◌, ◌<◌, length, true};
ghost use Rattle.std.specs.Str.{bytes_eq};
ghost use Rattle.nvm_device.specs.Bytes.{bytes_at};
ghost use Rattle.card_image.specs.Images.{IfKeeps, object_in};

use crate::objects::Objects;
use nvm_device::Nvm;
use piv_model::limits::BLOCK;

// Whether an object has these bytes from byte `64 * number` on.
fn has_part<N: Nvm, O: Objects>(nvm: &N, place: usize, number: usize, part: &[u8]) -> bool
    requires on { (N.state nvm.now).power.on ≡ true }
    requires size { 1114112 ≤ (N.state nvm.now).size }
    requires place { place < 33 }
    requires number { number < 256 }
    requires few { length part.now ≤ 64 }
    ensures { IfKeeps O.form (N.state nvm.now) (λ row. let object = object_in O.form row place in
        64 * number + length part.now ≤ length object
        → result ≡ bytes_eq (bytes_at object (64 * number) (length part.now)) part.now) }
{
    let mut buffer = [0; BLOCK];
    let out = &mut buffer[..part.len()];
    O::part(nvm, place, number, out);
    &*out == part
}

/// Whether an object has exactly this value.
pub(crate) fn has_value<N: Nvm, O: Objects>(nvm: &N, place: usize, value: &[u8]) -> bool
    requires on { (N.state nvm.now).power.on ≡ true }
    requires size { 1114112 ≤ (N.state nvm.now).size }
    requires place { place < 33 }
    ensures { IfKeeps O.form (N.state nvm.now) (λ row. result ≡ bytes_eq (object_in O.form row place) value.now) }
{
    let size = O::length(nvm, place);
    if size != value.len() {
        return false;
    }
    for number in 0..size.div_ceil(BLOCK) {
        let from = BLOCK * number;
        let to = size.min(from + BLOCK);
        let same = has_part::<N, O>(nvm, place, number, &value[from..to]);
        if !same {
            return false;
        }
    }
    true
}
