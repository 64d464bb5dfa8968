// What the cells of a scene began with.
ghost use Rattle.std.specs.Prelude.{◌≡◌, length, IfOk};
ghost use Rattle.scene_cells.specs.Raised.{cell_bases};
ghost use Rattle.scene_cells.specs.Turns.{scene_turns as scene_turns_of};

use card_cell::CellBase;
use piv_model::NoMemory;
use piv_scene::Scene;
use scene_cells::{cell_base, scene_turns};
use std::alloc::Global;

// The bases of all cards, each with the losses that its device had counted.
pub(crate) fn bases_of(
    alloc: Global,
    scene: &Scene,
    losses: &[u64],
) -> Result<Vec<CellBase>, NoMemory>
    requires { length losses.now ≡ length scene.now.cards }
    ensures { IfOk result (λ bases. bases.items
        ≡ cell_bases (scene_turns_of scene.entry.now.scripts) scene.entry.now.cards losses.entry.now) }
{
    let turns = scene_turns(scene);
    let mut bases = Vec::with_capacity(alloc, losses.len())?;
    for (card, lost) in losses.iter().enumerate() {
        bases.push_reserved(cell_base(alloc, scene, card, turns, *lost)?);
    }
    Ok(bases)
}
