// Cells that go behind turnstiles, and come back.
ghost use Rattle.std.specs.Prelude.{◌≡◌, ◌≤◌, [], length, map, vec_capacity};
ghost use Rattle.client_threads.specs.Held.{cell_of};

use card_cell::CardCell;
use client_threads::HeldCell;
use piv_model::Store;

// Puts the cells into the room; what is left is room for them.
pub(crate) fn hold<S: Store>(
    cells: &mut Vec<CardCell<S>>,
    mut room: Vec<HeldCell<S>>,
) -> Vec<HeldCell<S>>
    requires empty { room.items ≡ [] }
    requires room { length cells.old.items ≤ vec_capacity room }
    ensures held { map (λ h. cell_of h) result.items ≡ cells.old.items }
    ensures rest { cells.new.items ≡ [] }
    ensures capacity { vec_capacity cells.new ≡ vec_capacity cells.old }
{
    while let Some(cell) = cells.pop() {
        room.push_reserved(HeldCell::new(cell));
    }
    room.reverse();
    room
}

// Takes the cells into the room.
pub(crate) fn release<S: Store>(
    mut held: Vec<HeldCell<S>>,
    mut room: Vec<CardCell<S>>,
) -> Vec<CardCell<S>>
    requires empty { room.items ≡ [] }
    requires room { length held.items ≤ vec_capacity room }
    ensures { result.items ≡ map (λ h. cell_of h) held.items }
{
    while let Some(cell) = held.pop() {
        room.push_reserved(cell.into_cell());
    }
    held.destroy_empty();
    room.reverse();
    room
}
