// The record of an object.
ghost use Rattle.std.specs.Prelude.{◌≡◌, ◌+◌, ◌*◌, ◌<◌, ◌≤◌, length, true, IfSome, OnOk, OnErr};
ghost use Rattle.power_loss.specs.Told.{LostWhereDue};
ghost use Rattle.nvm_device.specs.Bytes.{bytes_at};
ghost use Rattle.nvm_slots.specs.Slots.{Kept, Cut};
ghost use Rattle.card_image.specs.Images.{HasObject, MayHaveObject, KeepsObjects, IfKeeps, object_in};
ghost use Rattle.twin_store.specs.Twins.{object_twin, value_twin, part_twin, length_at, are_short, spelled, twin_form};

use crate::layout::{RECORD, SLOT};
use card_image::layout::HEADER;
use nvm_device::{Lost, Nvm};
use nvm_slots::Twin;
use piv_model::limits::{BLOCK, LONGEST_OBJECT, OBJECTS};

fn object(place: usize) -> Twin
    requires { place < 33 }
    ensures { result ≡ object_twin place }
{
    let at = HEADER + RECORD * place;
    Twin {
        selector: at,
        slot: [at + 1, at + 1 + SLOT],
        size: SLOT,
    }
}

// The slots without their lengths.
fn value(place: usize) -> Twin
    requires { place < 33 }
    ensures { result ≡ value_twin place }
{
    let at = HEADER + RECORD * place;
    Twin {
        selector: at,
        slot: [at + 3, at + 3 + SLOT],
        size: LONGEST_OBJECT,
    }
}

// The slots from byte `64 * number` of their values on.
fn part(place: usize, number: usize) -> Twin
    requires place { place < 33 }
    requires number { number < 256 }
    ensures { result ≡ part_twin place number }
{
    let at = HEADER + RECORD * place;
    Twin {
        selector: at,
        slot: [at + 3 + BLOCK * number, at + 3 + SLOT + BLOCK * number],
        size: BLOCK,
    }
}

// The length that stands in the live slot of an object.
fn written_length<N: Nvm>(nvm: &N, place: usize) -> usize
    requires on { (N.state nvm.now).power.on ≡ true }
    requires size { 1114112 ≤ (N.state nvm.now).size }
    requires place { place < 33 }
    ensures told { IfSome (N.state nvm.now).bytes (λ row. result ≡ length_at row place) }
    ensures few { result ≤ 65535 }
{
    let mut out = [0; 2];
    object(place).read(nvm, &mut out);
    256 * out[0] as usize + out[1] as usize
}

/// Whether no object is too long.
pub(crate) fn has_short<N: Nvm>(nvm: &N) -> bool
    requires on { (N.state nvm.now).power.on ≡ true }
    requires size { 1114112 ≤ (N.state nvm.now).size }
    ensures { IfSome (N.state nvm.now).bytes (λ row. result ≡ are_short row) }
{
    for place in 0..OBJECTS {
        if written_length(nvm, place) > LONGEST_OBJECT {
            return false;
        }
    }
    true
}

/// The length of an object, 0 where it is absent.
pub(crate) fn value_length<N: Nvm>(nvm: &N, place: usize) -> usize
    requires on { (N.state nvm.now).power.on ≡ true }
    requires size { 1114112 ≤ (N.state nvm.now).size }
    requires place { place < 33 }
    ensures told { IfKeeps twin_form (N.state nvm.now) (λ row. result ≡ length (object_in twin_form row place)) }
    ensures few { result ≤ 16384 }
{
    written_length(nvm, place).min(LONGEST_OBJECT)
}

/// Reads an object into `out`, which has its length.
pub(crate) fn fill_value<N: Nvm>(nvm: &N, place: usize, out: &mut [u8])
    requires on { (N.state nvm.now).power.on ≡ true }
    requires size { 1114112 ≤ (N.state nvm.now).size }
    requires place { place < 33 }
    ensures { IfKeeps twin_form (N.state nvm.now) (λ row. let object = object_in twin_form row place in
        length out.old ≡ length object → out.new ≡ object) }
{
    if out.len() <= LONGEST_OBJECT {
        value(place).read(nvm, out);
    }
}

/// Reads at most 64 bytes of an object, from byte `64 * number` on.
pub(crate) fn read_part<N: Nvm>(nvm: &N, place: usize, number: usize, out: &mut [u8])
    requires on { (N.state nvm.now).power.on ≡ true }
    requires size { 1114112 ≤ (N.state nvm.now).size }
    requires place { place < 33 }
    requires number { number < 256 }
    requires few { length out.old ≤ 64 }
    ensures size { length out.new ≡ length out.old }
    ensures told { IfKeeps twin_form (N.state nvm.now) (λ row. let object = object_in twin_form row place in
        64 * number + length out.old ≤ length object
        → out.new ≡ bytes_at object (64 * number) (length out.old)) }
{
    part(place, number).read(nvm, out);
}

// Length and value at the beginning of a buffer, since a put writes both at once.
fn spell<'a>(buffer: &'a mut [u8; SLOT], value: &[u8]) -> &'a [u8]
    requires { length value.now ≤ 16384 }
    ensures { result.now ≡ spelled value.now }
{
    let n = value.len();
    buffer[0] = (n / 256) as u8;
    buffer[1] = (n % 256) as u8;
    buffer[2..n + 2].copy_from_slice(value);
    &buffer[..n + 2]
}

/// Puts an object in place, in two writes: length and value in the other slot, then the selector.
pub(crate) fn put_value<N: Nvm>(nvm: &mut N, place: usize, value: &[u8]) -> Result<(), Lost>
    requires on { (N.state nvm.old).power.on ≡ true }
    requires size { 1114112 ≤ (N.state nvm.old).size }
    requires place { place < 33 }
    requires short { length value.now ≤ 16384 }
    requires keeps { IfSome (N.state nvm.old).bytes (λ row. KeepsObjects twin_form row) }
    ensures ok { OnOk result (Kept 2 (HasObject twin_form place value.now) (N.state nvm.old) (N.state nvm.new)) }
    ensures lost { OnErr result (Cut 2 (MayHaveObject twin_form place value.now) (N.state nvm.old) (N.state nvm.new)) }
    ensures due { LostWhereDue 2 (N.state nvm.old).power.due result }
{
    let mut buffer = [0; SLOT];
    let bytes = spell(&mut buffer, value);
    let twin = object(place);
    match twin.replace(nvm, bytes) {
        Ok(()) => Ok(()),
        Err(Lost) => Err(Lost),
    }
}
