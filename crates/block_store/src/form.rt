// Objects in blocks as a form of objects.
ghost use Rattle.block_store.specs.Blocks.{block_form};
ghost use Rattle.block_store.specs.Laws.{is_block_form};

use crate::deciding::has_chains;
use crate::directory::read_directory;
use crate::laying::lay_runs;
use crate::putting::put_object;
use crate::reading::{fill_object, object_length, read_part};
use card_image::Objects;
use nvm_device::{Lost, Nvm};
use piv_model::StartObjects;

/// Objects in blocks of 64 bytes, copied on write.
#[derive(Drop)]
pub struct Blocks;

impl Objects for Blocks {
    ghost form = { block_form };

    ghost is_form = { is_block_form };

    fn mark() -> [u8; 4] {
        *b"PIVB"
    }

    fn are_objects<N: Nvm>(nvm: &N, budget: usize) -> bool {
        has_chains(&read_directory(nvm), budget)
    }

    fn length<N: Nvm>(nvm: &N, place: usize) -> usize {
        object_length(nvm, place)
    }

    fn fill<N: Nvm>(nvm: &N, place: usize, out: &mut [u8]) {
        fill_object(nvm, place, out);
    }

    fn part<N: Nvm>(nvm: &N, place: usize, number: usize, out: &mut [u8]) {
        read_part(nvm, place, number, out);
    }

    fn put<N: Nvm>(nvm: &mut N, place: usize, value: &[u8]) -> Result<(), Lost> {
        put_object(nvm, place, value)
    }

    fn lay_objects<N: Nvm>(nvm: &mut N, objects: &StartObjects) -> Result<(), Lost> {
        lay_runs(nvm, objects)
    }
}
