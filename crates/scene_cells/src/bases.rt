// What the cells of a scene began with.
ghost use Rattle.std.specs.Prelude.{◌≡◌, ◌<◌, length, slice_get, Some, IfOk};
ghost use Rattle.power_loss.specs.Plans.{write_numbers};
ghost use Rattle.scene_cards.specs.CardValues.{CardValue};
ghost use Rattle.scene_cells.specs.Raised.{cell_base as cell_base_of};

use card_cell::{CellBase, Plan};
use nvm_device::Loss;
use piv_model::{NoMemory, Start, StartObjects};
use piv_scene::Scene;
use std::alloc::Global;

fn copy_objects(alloc: Global, objects: &StartObjects) -> Result<StartObjects, NoMemory>
    ensures { IfOk result (λ copy. copy ≡ objects.now) }
{
    let mut copy = StartObjects::new(alloc);
    for k in 0..objects.len() {
        let object = objects.value(k);
        copy.push(object.0, object.1)?;
    }
    Ok(copy)
}

fn copy_start(alloc: Global, start: &Start) -> Result<Start, NoMemory>
    ensures { IfOk result (λ copy. copy ≡ start.now) }
{
    let objects = copy_objects(alloc, &start.objects)?;
    Ok(Start {
        pin: start.pin,
        puk: start.puk,
        limit_pin: start.limit_pin,
        limit_puk: start.limit_puk,
        global: start.global,
        admin: start.admin,
        card_auth: start.card_auth,
        budget: start.budget,
        random: start.random,
        objects,
    })
}

// The numbers of the writes that a plan loses.
fn writes_of(alloc: Global, losses: &[Loss]) -> Result<Plan, NoMemory>
    ensures { IfOk result (λ plan. plan ≡ write_numbers losses.now) }
{
    let mut plan = Plan::new(alloc);
    for loss in losses {
        plan.push(loss.write)?;
    }
    Ok(plan)
}

/// What the cell of a card began with, of so many turns and on a device that had lost power so often.
pub fn cell_base(
    alloc: Global,
    scene: &Scene,
    card: usize,
    turns: usize,
    lost: u64,
) -> Result<CellBase, NoMemory>
    requires { card < length scene.now.cards }
    ensures { IfOk result (λ base. (c : CardValue) → slice_get scene.now.cards card ≡ Some c
        → base ≡ cell_base_of c.start c.plan turns lost) }
{
    let start = copy_start(alloc, scene.start(card))?;
    let plan = writes_of(alloc, scene.plan(card))?;
    Ok(CellBase {
        start,
        turns,
        plan,
        losses: lost,
    })
}
