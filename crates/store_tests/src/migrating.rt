// Losses at every write of a migration to layout 2.
ghost use Rattle.std.specs.Prelude.{◌≡◌, ◌<◌, true, None};

use crate::bench::{Bench, have_same_secrets, read_alike};
use crate::cards::{Kind, Stored, in_memory, stored};
use crate::left::{LEFT, Left, one_loss};
use block_store::Blocks;
use card_image::{Image, Objects};
use nvm_device::Nvm;
use piv_model::{Lost, StartGlobal, Store};
use std::alloc::Global;
use std::process::Abort;
use std::test::Fail;
use test_starts::GLOBAL_PIN;
use twin_store::Twins;

const GLOBAL: StartGlobal = StartGlobal {
    limit: 4,
    pin: GLOBAL_PIN,
};

// Whether power was lost within the migration. It is on again.
#[tactic(auto, unfolding(piv_model::specs::Forms::is_pin))]
fn loses_migration<N: Nvm, O: Objects>(store: &mut Image<N, O>) -> bool
    requires on { (⟦<Image<N, O> as Store>⟧.state store.old).power.on ≡ true }
    requires untold { (⟦<Image<N, O> as Store>⟧.state store.old).mem ≡ None }
    ensures on { (⟦<Image<N, O> as Store>⟧.state store.new).power.on ≡ true }
    ensures untold { (⟦<Image<N, O> as Store>⟧.state store.new).mem ≡ None }
{
    match store.migrate(&GLOBAL) {
        Ok(()) => false,
        Err(Lost) => {
            store.power_up();
            true
        }
    }
}

impl<N: Nvm, O: Objects> Bench<Image<N, O>> {
    fn loses_migration(&mut self) -> bool {
        loses_migration(&mut self.store)
    }

    fn layout(&self) -> u8 {
        self.store.layout()
    }
}

// The layout and the memory are the old ones, until the byte that names the layout is even.
fn expect_loss<O: Objects>(
    rt: &impl Abort,
    alloc: Global,
    write: u8,
    left: Left,
) -> Result<(), Fail>
    requires { 0 < write }
{
    let mut lost = stored::<O>(alloc, Kind::First, one_loss(alloc, write, left)?)?;
    assert!(rt; lost.loses_migration(), "{write} {left:?}");
    let is_new = write == 3 && left.byte(1, 2) % 2 == 0;
    let kept = in_memory(alloc, if is_new { Kind::Global } else { Kind::First })?;
    assert_eq!(rt;
        lost.layout(),
        if is_new { 2 } else { 1 },
        "{write} {left:?}"
    );
    assert!(rt; read_alike(alloc, &lost, &kept)?, "{write} {left:?}");
    if !is_new {
        assert!(rt; !lost.loses_migration(), "{write} {left:?}");
    }
    expect_migrated(rt, alloc, &mut lost)
}

// The card has layout 2, and a Global PIN.
fn expect_migrated<O: Objects>(
    rt: &impl Abort,
    alloc: Global,
    card: &mut Bench<Stored<O>>,
) -> Result<(), Fail> {
    let mut kept = in_memory(alloc, Kind::Global)?;
    assert_eq!(rt; card.layout(), 2);
    assert!(rt; read_alike(alloc, card, &kept)?);
    assert!(rt; have_same_secrets(card, &mut kept)?);
    Ok(())
}

fn expect_losses<O: Objects>(rt: &impl Abort, alloc: Global) -> Result<(), Fail> {
    for write in 1..=3 {
        for left in LEFT {
            expect_loss::<O>(rt, alloc, write, left)?;
        }
    }
    Ok(())
}

#[test]
fn a_lost_migration_leaves_the_old_card_or_the_new_one(rt: HostRuntime) -> Result<(), Fail> {
    expect_losses::<Twins>(&rt, rt.alloc())?;
    expect_losses::<Blocks>(&rt, rt.alloc())
}

#[test]
fn a_torn_version_byte_names_layout_1_or_2_by_its_lowest_bit(rt: HostRuntime) -> Result<(), Fail> {
    for byte in 0..=255 {
        expect_loss::<Twins>(&rt, rt.alloc(), 3, Left::Torn(byte))?;
        expect_loss::<Blocks>(&rt, rt.alloc(), 3, Left::Torn(byte))?;
    }
    Ok(())
}
