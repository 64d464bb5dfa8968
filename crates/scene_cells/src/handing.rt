// The devices of cells in their places again.
ghost use Rattle.std.specs.Prelude.{◌≡◌, ◌≤◌, ◌+◌, ◌++◌, map, length, vec_len, vec_capacity};
ghost use Rattle.std.specs.List.{All};
ghost use Rattle.block_store.specs.Blocks.{block_form};
ghost use Rattle.card_cell.specs.Cells.{history_of};
ghost use Rattle.card_cell.specs.Holds.{IsHeld};
ghost use Rattle.scene_cells.specs.Cells.{device_in};
ghost use Rattle.scene_cells.specs.Lowered.{AreLeft};

use crate::card::{SceneCell, lower};
use crate::first::put_first;
use nvm_device::Nvm;
use piv_model::History;

/// Takes the cells down. Their devices stand before the other devices again, and their histories before the other
/// histories, each in its place. It takes no memory.
pub fn hand_back<N: Nvm + Drop>(
    mut cells: Vec<SceneCell<N>>,
    devices: &mut Vec<N>,
    histories: &mut Vec<History>,
)
    requires place { length cells.items + vec_len devices.old ≤ vec_capacity devices.old }
    requires room { length cells.items + vec_len histories.old ≤ vec_capacity histories.old }
    ensures devices { devices.new.items ≡ map (λ cell. device_in cell) cells.items ++ devices.old.items }
    ensures histories { map (λ h. h.past) histories.new.items
        ≡ map (λ cell. history_of cell) cells.items ++ map (λ h. h.past) histories.old.items }

    // Each device has room for a card, and holds what its cell held.
    ensures sizes { All (λ cell. 1114112 ≤ (N.state (device_in cell)).size) cells.items }
    ensures left { AreLeft (λ cell base R. IsHeld block_form.put_cost cell base R)
        (λ cell. N.state (device_in cell)) cells.items }
{
    while let Some(cell) = cells.pop() {
        let (nvm, history) = lower(cell);
        put_first(devices, nvm);
        put_first(histories, history);
    }
}
