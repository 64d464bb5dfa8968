// The values of objects.
ghost use Rattle.std.specs.Prelude.{◌≡◌, ◌+◌, ◌-◌, ◌*◌, ◌<◌, ◌≤◌, length, true, IfSome, slice_index};
ghost use Rattle.nvm_device.specs.Bytes.{bytes_at, overwrite};
ghost use Rattle.piv_model.specs.Memory.{blocks as blocks_of};
ghost use Rattle.card_image.specs.Images.{IfKeeps, object_in};
ghost use Rattle.block_store.specs.Blocks.{chain_of, length_in, place_of_block, block_form};

use crate::directory::{first_in, length_in, next_in, read_directory};
use crate::layout::FIRST_BLOCK;
use nvm_device::Nvm;
use piv_model::limits::{BLOCK, LONGEST_OBJECT, MOST_BLOCKS};

/// The length of an object, 0 where it is absent.
pub(crate) fn object_length<N: Nvm>(nvm: &N, place: usize) -> usize
    requires on { (N.state nvm.now).power.on ≡ true }
    requires size { 1114112 ≤ (N.state nvm.now).size }
    requires place { place < 33 }
    ensures told { IfKeeps block_form (N.state nvm.now) (λ row. result ≡ length (object_in block_form row place)) }
    ensures few { result ≤ 16384 }
{
    length_in(&read_directory(nvm), place).min(LONGEST_OBJECT)
}

fn copy_part(out: &mut [u8], from: usize, part: &[u8])
    requires { from + length part.now ≤ length out.old }
    ensures { out.new ≡ overwrite out.old from part.now }
{
    out[from..from + part.len()].copy_from_slice(part);
}

// A part of an object out of one block.
fn fill_part<N: Nvm>(nvm: &N, block: usize, out: &mut [u8], from: usize, n: usize)
    requires on { (N.state nvm.now).power.on ≡ true }
    requires size { 1114112 ≤ (N.state nvm.now).size }
    requires few { n ≤ 64 }
    requires within { from + n ≤ length out.old }
    ensures size { length out.new ≡ length out.old }
    ensures told { IfSome (N.state nvm.now).bytes (λ row. block < 2048
        → out.new ≡ overwrite out.old from (bytes_at row (place_of_block block) n)) }
{
    let mut buffer = [0; BLOCK];
    nvm.read(
        FIRST_BLOCK + BLOCK * block.min(MOST_BLOCKS - 1),
        &mut buffer[..n],
    );
    copy_part(out, from, &buffer[..n]);
}

/// Reads an object into `out`, which has its length.
pub(crate) fn fill_object<N: Nvm>(nvm: &N, place: usize, out: &mut [u8])
    requires on { (N.state nvm.now).power.on ≡ true }
    requires size { 1114112 ≤ (N.state nvm.now).size }
    requires place { place < 33 }
    ensures told { IfKeeps block_form (N.state nvm.now) (λ row. let object = object_in block_form row place in
        length out.old ≡ length object → out.new ≡ object) }
{
    let directory = read_directory(nvm);
    let mut block = first_in(&directory, place);
    let size = out.len();
    for j in 0..size.div_ceil(BLOCK) {
        let from = BLOCK * j;
        fill_part(nvm, block, out, from, (size - from).min(BLOCK));
        block = next_in(&directory, block);
    }
}

// The block of this number in the chain of an object.
fn block_at(directory: &[u8; 4228], place: usize, number: usize) -> usize
    requires place { place < 33 }
    ensures block { number < blocks_of (length_in directory.now place)
        → result ≡ slice_index (chain_of directory.now place) number }
    ensures few { result ≤ 65535 }
{
    let mut block = first_in(directory, place);
    for _i in 0..number {
        block = next_in(directory, block);
    }
    block
}

/// Reads at most 64 bytes of an object, from byte `64 * number` on.
pub(crate) fn read_part<N: Nvm>(nvm: &N, place: usize, number: usize, out: &mut [u8])
    requires on { (N.state nvm.now).power.on ≡ true }
    requires size { 1114112 ≤ (N.state nvm.now).size }
    requires place { place < 33 }
    requires few { length out.old ≤ 64 }
    ensures size { length out.new ≡ length out.old }
    ensures told { IfKeeps block_form (N.state nvm.now) (λ row. let object = object_in block_form row place in
        64 * number + length out.old ≤ length object
        → out.new ≡ bytes_at object (64 * number) (length out.old)) }
{
    let block = block_at(&read_directory(nvm), place, number);
    nvm.read(FIRST_BLOCK + BLOCK * block.min(MOST_BLOCKS - 1), out);
}
