// Which bytes stand where, and what is read of them.
ghost use Rattle.std.specs.Prelude.{◌≡◌, ◌<◌, true, IfOk};

use crate::bench::{Bench, Call, LOST};
use crate::cards::{Kind, found, object, personal, stored};
use crate::left::{LEFT, Left, one_loss};
use crate::rows::hold_rows;
use crate::untold::Untold;
use block_store::Blocks;
use card_image::{Image, Objects};
use nvm_device::{Fused, Nvm};
use piv_model::{RefId, plain_start};
use std::alloc::Global;
use std::process::Abort;
use std::test::Fail;
use twin_store::Twins;

// The device of a card behind these calls.
fn device_after<O: Objects>(
    rt: &impl Abort,
    alloc: Global,
    kind: Kind,
    call: Option<&Call<'_>>,
) -> Result<Untold, Fail>
    ensures { IfOk result (λ nvm. (⟦<Untold as Nvm>⟧.state nvm).power.on ≡ true) }
{
    let mut card = Bench::new(personal::<O>(alloc, kind)?);
    if let Some(call) = call {
        assert_eq!(rt; card.make(call), Ok(()), "{call:?}");
    }
    Ok(card.into_inner())
}

// The references in layout 1, the CHUID of place 1 and the printed information of place 9.
#[test]
fn the_plain_card_of_layout_1_in_twin_records(rt: HostRuntime) -> Result<(), Fail> {
    let alloc = rt.alloc();
    let rows = "
        0 5049565401
        6 0800000303313233343536FFFF03033132333435363738
        33029 0000043E00FE00
        295213 00000601024142FE00
    ";
    let nvm = device_after::<Twins>(&rt, alloc, Kind::First, None)?;
    assert!(rt; hold_rows(alloc, &nvm, rows)?);
    Ok(())
}

#[test]
fn a_spend_in_layout_1_writes_slot_1_and_then_the_selector(rt: HostRuntime) -> Result<(), Fail> {
    let alloc = rt.alloc();
    let rows = "
        8 01
        9 0303313233343536FFFF
        29 0302313233343536FFFF03033132333435363738
    ";
    let spend = Call::Spend(RefId::Pin);
    let twins = device_after::<Twins>(&rt, alloc, Kind::First, Some(&spend))?;
    assert!(rt; hold_rows(alloc, &twins, rows)?);
    let blocks = device_after::<Blocks>(&rt, alloc, Kind::First, Some(&spend))?;
    assert!(rt; hold_rows(alloc, &blocks, rows)?);
    Ok(())
}

#[test]
fn layout_2_has_its_references_behind_the_keys(rt: HostRuntime) -> Result<(), Fail> {
    let alloc = rt.alloc();
    let rows = "
        4 02
        6 0800
        8 00000000
        49 08101112131415161718191A1B1C1D1E1F00
        82 08000102030405060708090A0B0C0D0E0F00
        115 01
        116 0303313233343536FFFF030331323334353637380404393837363534FFFF
        146 0303313233343536FFFF030231323334353637380404393837363534FFFF
        176 00
    ";
    let spend = Call::Spend(RefId::Puk);
    let twins = device_after::<Twins>(&rt, alloc, Kind::Global, Some(&spend))?;
    assert!(rt; hold_rows(alloc, &twins, rows)?);
    let blocks = device_after::<Blocks>(&rt, alloc, Kind::Global, Some(&spend))?;
    assert!(rt; hold_rows(alloc, &blocks, rows)?);
    Ok(())
}

// Behind a limit of 0 there is no Global PIN.
#[test]
fn the_plain_card_of_layout_2(rt: HostRuntime) -> Result<(), Fail> {
    let alloc = rt.alloc();
    let head = "
        4 02
        6 0800
        115 00
        116 0303313233343536FFFF0303313233343536373800
    ";
    let twins = device_after::<Twins>(&rt, alloc, Kind::Second, None)?;
    assert!(rt; hold_rows(alloc, &twins, head)?);
    let objects = "
        0 50495654
        33029 0000043E00FE00
        295213 00000601024142FE00
    ";
    assert!(rt; hold_rows(alloc, &twins, objects)?);
    let blocks = device_after::<Blocks>(&rt, alloc, Kind::Second, None)?;
    assert!(rt; hold_rows(alloc, &blocks, head)?);
    let objects = "
        0 50495642
        256 00
        261 00040000
        293 00060001
        297 00120002
    ";
    assert!(rt; hold_rows(alloc, &blocks, objects)?);
    Ok(())
}

// The directory's entries of CHUID, printed information and Discovery Object, and their blocks.
#[test]
fn the_plain_card_in_blocks(rt: HostRuntime) -> Result<(), Fail> {
    let alloc = rt.alloc();
    let rows = "
        0 5049564201
        256 00
        261 00040000
        293 00060001
        297 00120002
        8768 3E00FE00
        8832 01024142FE00
        8896 4F0BA0000003080000100001005F2F024000
    ";
    let nvm = device_after::<Blocks>(&rt, alloc, Kind::First, None)?;
    assert!(rt; hold_rows(alloc, &nvm, rows)?);
    Ok(())
}

// The new value stands in blocks 3 and 4, and the old one still in block 1.
#[test]
fn a_put_writes_the_lowest_free_blocks_and_the_other_directory(
    rt: HostRuntime,
) -> Result<(), Fail> {
    let alloc = rt.alloc();
    let rows = "
        256 01
        293 00060001
        4521 00410003
        4623 0004
        8832 01024142FE00
        8960 5A5A5A5A5A5A5A5A
        9016 5A5A5A5A5A5A5A5A
        9024 5A00
    ";
    let put = Call::Put(object(0x09)?, &[0x5A; 65]);
    let nvm = device_after::<Blocks>(&rt, alloc, Kind::First, Some(&put))?;
    assert!(rt; hold_rows(alloc, &nvm, rows)?);
    Ok(())
}

// The new value stands in slot 1, in front of it its length, and the old one still in slot 0.
#[test]
fn a_put_writes_the_other_slot_of_a_twin_record(rt: HostRuntime) -> Result<(), Fail> {
    let alloc = rt.alloc();
    let rows = "
        295213 01000601024142FE00
        311600 00415A5A5A5A5A5A5A5A
        311666 5A00
    ";
    let put = Call::Put(object(0x09)?, &[0x5A; 65]);
    let nvm = device_after::<Twins>(&rt, alloc, Kind::First, Some(&put))?;
    assert!(rt; hold_rows(alloc, &nvm, rows)?);
    Ok(())
}

#[test]
fn a_store_is_no_card_of_the_other_store(rt: HostRuntime) -> Result<(), Fail> {
    let alloc = rt.alloc();
    let twins = device_after::<Twins>(&rt, alloc, Kind::Second, None)?;
    assert_eq!(rt; found::<Blocks>(twins), "bad");
    let blocks = device_after::<Blocks>(&rt, alloc, Kind::Second, None)?;
    assert_eq!(rt; found::<Twins>(blocks), "bad");
    assert_eq!(rt; found::<Twins>(Untold::new(alloc)?), "blank");
    assert_eq!(rt; found::<Blocks>(Untold::new(alloc)?), "blank");
    Ok(())
}

// A put of 64 bytes to the printed information loses power. It says whether the new value stands.
fn has_put<O: Objects>(rt: &impl Abort, alloc: Global, write: u8, left: Left) -> Result<bool, Fail>
    requires { 0 < write }
{
    let mut card = stored::<O>(alloc, Kind::Second, one_loss(alloc, write, left)?)?;
    let printed = object(0x09)?;
    assert_eq!(rt; card.make(&Call::Put(printed, &[0x5A; 64])), LOST);
    let old = card.has_exactly(alloc, printed, &[0x01, 0x02, 0x41, 0x42, 0xFE, 0x00])?;
    let new = card.has_exactly(alloc, printed, &[0x5A; 64])?;
    assert!(rt; old != new);
    Ok(new)
}

#[test]
fn a_put_stands_from_its_last_write_on(rt: HostRuntime) -> Result<(), Fail> {
    let alloc = rt.alloc();
    let torn = Left::Torn(0x5A);
    assert!(rt; !has_put::<Blocks>(&rt, alloc, 1, torn)?);
    assert!(rt; !has_put::<Blocks>(&rt, alloc, 2, Left::After)?);
    assert!(rt; !has_put::<Blocks>(&rt, alloc, 3, torn)?);
    assert!(rt; has_put::<Blocks>(&rt, alloc, 3, Left::After)?);
    assert!(rt; !has_put::<Twins>(&rt, alloc, 1, torn)?);
    assert!(rt; !has_put::<Twins>(&rt, alloc, 1, Left::After)?);
    assert!(rt; has_put::<Twins>(&rt, alloc, 2, Left::After)?);
    Ok(())
}

#[test]
fn a_spend_whose_selector_is_torn_to_an_even_byte_is_undone(rt: HostRuntime) -> Result<(), Fail> {
    let alloc = rt.alloc();
    for (byte, tries) in [(0xAA, 3), (0xAB, 2)] {
        let losses = one_loss(alloc, 2, Left::Torn(byte))?;
        let mut card = stored::<Twins>(alloc, Kind::First, losses)?;
        assert_eq!(rt; card.make(&Call::Spend(RefId::Pin)), LOST);
        assert_eq!(rt; card.tries(), [tries, 3]);
    }
    Ok(())
}

// What is found where personalising loses power in this write, or none where it makes fewer.
fn lost_personalising<O: Objects>(
    rt: &impl Abort,
    alloc: Global,
    write: u8,
    left: Left,
) -> Result<Option<&'static str>, Fail>
    requires { 0 < write }
{
    let fused = Fused::new(Untold::new(alloc)?, one_loss(alloc, write, left)?);
    match Image::<Fused<Untold>, O>::personalise(fused, &plain_start(alloc)?) {
        Ok(_) => Ok(None),
        Err(device) => {
            assert_eq!(rt; device.lost(), 1);
            let mut nvm = device.into_inner();
            nvm.power();
            Ok(Some(found::<O>(nvm)))
        }
    }
}

// The mark comes last. Until it stands there is no card.
fn expect_lost_personalising<O: Objects>(
    rt: &impl Abort,
    alloc: Global,
    left: Left,
) -> Result<(), Fail> {
    let mut cards = 0u8;
    for write in 1..=100 {
        match lost_personalising::<O>(rt, alloc, write, left)? {
            None => break,
            Some(what) => {
                if what == "card" {
                    cards = cards.saturating_add(1);
                }
            }
        }
    }
    assert_eq!(rt; cards, u8::from(left == Left::After), "{left:?}");
    Ok(())
}

#[test]
fn a_device_whose_personalising_is_lost_is_no_card_before_its_mark(
    rt: HostRuntime,
) -> Result<(), Fail> {
    for left in LEFT {
        expect_lost_personalising::<Twins>(&rt, rt.alloc(), left)?;
        expect_lost_personalising::<Blocks>(&rt, rt.alloc(), left)?;
    }
    Ok(())
}
