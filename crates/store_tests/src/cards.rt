// The stores that are tested.
ghost use Rattle.std.specs.Prelude.{◌≡◌, true, None, IfOk};
ghost use Rattle.power_loss.specs.Due.{RisesFrom};
ghost use Rattle.power_loss.specs.Plans.{write_numbers};
ghost use Rattle.piv_model.specs.Starts.{SpellsMemory};

use crate::bench::Bench;
use crate::untold::Untold;
use card_image::{Image, Objects};
use memory_store::MemoryStore;
use nvm_device::{Fused, Loss, Nvm};
use piv_model::{Found, NoMemory, ObjectId, Start, Store, object_by_tag, plain_start};
use std::alloc::Global;
use std::test::Fail;
use test_starts::global_start;

// A store on a device that loses the writes of a plan.
pub(crate) type Stored<O> = Image<Fused<Untold>, O>;

// The plain card in layout 1 or 2, or one with a Global PIN of four tries, which has layout 2.
#[derive(Clone, Copy, PartialEq, Eq, Debug)]
pub(crate) enum Kind {
    First,
    Second,
    Global,
}

fn start_of(alloc: Global, kind: Kind) -> Result<Start, NoMemory>
    ensures { IfOk result (λ start. SpellsMemory start) }
{
    if kind == Kind::Global {
        return global_start(alloc, 4);
    }
    plain_start(alloc)
}

// A card on a device that was blank.
pub(crate) fn personal<O: Objects>(alloc: Global, kind: Kind) -> Result<Image<Untold, O>, Fail>
    ensures on { IfOk result (λ image. (⟦<Image<Untold, O> as Store>⟧.state image).power.on ≡ true) }
    ensures untold { IfOk result (λ image. (⟦<Image<Untold, O> as Store>⟧.state image).mem ≡ None) }
{
    let nvm = Untold::new(alloc)?;
    let made = if kind == Kind::First {
        Image::personalise_layout1(nvm, &plain_start(alloc)?)
    } else {
        Image::personalise(nvm, &start_of(alloc, kind)?)
    };
    Ok(made.ok().ok_or("power was lost")?)
}

// What is found on a device.
pub(crate) fn found<O: Objects>(nvm: Untold) -> &'static str
    requires { (⟦<Untold as Nvm>⟧.state nvm).power.on ≡ true }
{
    match Image::<Untold, O>::look(nvm) {
        Found::Blank(_) => "blank",
        Found::BadImage(_) => "bad",
        Found::Card(_) => "card",
    }
}

// The same under a plan of losses.
pub(crate) fn stored<O: Objects>(
    alloc: Global,
    kind: Kind,
    losses: Vec<Loss>,
) -> Result<Bench<Stored<O>>, Fail>
    requires rises { RisesFrom 0 (write_numbers losses.items) }
{
    let image = personal::<O>(alloc, kind)?;
    Ok(Bench::new(Image::adopt(Fused::new(image.into_inner(), losses))))
}

// The same card in memory, without losses.
pub(crate) fn in_memory(alloc: Global, kind: Kind) -> Result<Bench<MemoryStore>, Fail> {
    in_memory_under(alloc, kind, Vec::new(alloc))
}

// The same under a plan of losses.
pub(crate) fn in_memory_under(
    alloc: Global,
    kind: Kind,
    losses: Vec<memory_store::Loss>,
) -> Result<Bench<MemoryStore>, Fail>
    requires rises { RisesFrom 0 (write_numbers losses.items) }
{
    let store = MemoryStore::new(alloc, &start_of(alloc, kind)?, losses)?;
    Ok(Bench::new(store.untold()))
}

// The object whose tag ends in this byte.
pub(crate) fn object(last: u8) -> Result<ObjectId, Fail> {
    Ok(object_by_tag(&[0x5F, 0xC1, last]).ok_or("no such object")?)
}
