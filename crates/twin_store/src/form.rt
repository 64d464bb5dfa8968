// Twin records as a form of objects.
ghost use Rattle.twin_store.specs.Twins.{twin_form};
ghost use Rattle.twin_store.specs.Laws.{is_twin_form};

use crate::laying::lay_records;
use crate::records::{fill_value, has_short, put_value, read_part, value_length};
use card_image::Objects;
use nvm_device::{Lost, Nvm};
use piv_model::StartObjects;

/// Objects as twin records: a selector byte, and two slots of a length and a value.
#[derive(Drop)]
pub struct Twins;

impl Objects for Twins {
    ghost form = { twin_form };

    ghost is_form = { is_twin_form };

    fn mark() -> [u8; 4] {
        *b"PIVT"
    }

    fn are_objects<N: Nvm>(nvm: &N, budget: usize) -> bool {
        has_short(nvm)
    }

    fn length<N: Nvm>(nvm: &N, place: usize) -> usize {
        value_length(nvm, place)
    }

    fn fill<N: Nvm>(nvm: &N, place: usize, out: &mut [u8]) {
        fill_value(nvm, place, out);
    }

    fn part<N: Nvm>(nvm: &N, place: usize, number: usize, out: &mut [u8]) {
        read_part(nvm, place, number, out);
    }

    fn put<N: Nvm>(nvm: &mut N, place: usize, value: &[u8]) -> Result<(), Lost> {
        put_value(nvm, place, value)
    }

    fn lay_objects<N: Nvm>(nvm: &mut N, objects: &StartObjects) -> Result<(), Lost> {
        lay_records(nvm, objects)
    }
}
