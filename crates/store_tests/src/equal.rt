// One table of calls over every store, with the same answers.

use crate::bench::{Bench, Call, TOO_LARGE, have_same_secrets, read_alike};
use crate::cards::{Kind, in_memory, object, stored};
use block_store::Blocks;
use memory_store::MemoryStore;
use piv_model::{PutFault, RefId, Store};
use std::alloc::Global;
use std::process::Abort;
use std::test::Fail;
use twin_store::Twins;

// A value of three blocks.
const LONG: [u8; 130] = [0xA5; 130];

// Both stores answer this to the call, and read alike then.
fn expect_call<S: Store>(
    rt: &impl Abort,
    alloc: Global,
    card: &mut Bench<S>,
    kept: &mut Bench<MemoryStore>,
    call: &Call<'_>,
    want: Result<(), PutFault>,
) -> Result<(), Fail> {
    assert_eq!(rt; card.make(call), want, "{call:?}");
    assert_eq!(rt; kept.make(call), want, "{call:?}");
    assert!(rt; read_alike(alloc, card, kept)?, "{call:?}");
    Ok(())
}

// Each call with its answer, and the tries of PIN and PUK behind it.
fn expect_calls<S: Store>(
    rt: &impl Abort,
    alloc: Global,
    card: &mut Bench<S>,
    kind: Kind,
) -> Result<(), Fail> {
    let mut kept = in_memory(alloc, kind)?;
    let chuid = object(0x02)?;
    let printed = object(0x09)?;
    for (call, want, tries) in &[
        (Call::Spend(RefId::Pin), Ok(()), [2, 3]),
        (Call::Spend(RefId::Puk), Ok(()), [2, 2]),
        (Call::Restore(RefId::Pin), Ok(()), [3, 2]),
        (Call::Renew(RefId::Puk), Ok(()), [3, 3]),
        (Call::Spend(RefId::Pin), Ok(()), [2, 3]),
        (Call::Spend(RefId::Puk), Ok(()), [2, 2]),
        (Call::Unblock, Ok(()), [3, 3]),
        (Call::Put(chuid, &LONG), Ok(()), [3, 3]),
        (Call::Put(printed, &[]), Ok(()), [3, 3]),
        (Call::Put(printed, &[]), Ok(()), [3, 3]),
        (Call::Put(printed, &LONG[..64]), Ok(()), [3, 3]),
        (Call::Put(chuid, &LONG[..65]), Ok(()), [3, 3]),
        (Call::Put(chuid, &LONG[..1]), Ok(()), [3, 3]),
        (Call::Spend(RefId::Pin), Ok(()), [2, 3]),
    ] {
        expect_call(rt, alloc, card, &mut kept, call, *want)?;
        assert_eq!(rt; card.tries(), *tries, "{call:?}");
    }
    assert!(rt; have_same_secrets(card, &mut kept)?);
    Ok(())
}

#[test]
fn every_store_answers_the_same_calls_alike(rt: HostRuntime) -> Result<(), Fail> {
    let alloc = rt.alloc();
    for kind in [Kind::First, Kind::Second, Kind::Global] {
        expect_calls(&rt, alloc, &mut in_memory(alloc, kind)?, kind)?;
        let mut twins = stored::<Twins>(alloc, kind, Vec::new(alloc))?;
        expect_calls(&rt, alloc, &mut twins, kind)?;
        let mut blocks = stored::<Blocks>(alloc, kind, Vec::new(alloc))?;
        expect_calls(&rt, alloc, &mut blocks, kind)?;
    }
    Ok(())
}

// A value of so many bytes.
fn value_of(alloc: Global, size: usize) -> Result<Vec<u8>, Fail> {
    let mut value = vec![in alloc; 0; size]?;
    for (i, byte) in value.iter_mut().enumerate() {
        *byte = (i % 251) as u8;
    }
    Ok(value)
}

// Each put is that of an object, by the last byte of its tag, and so many bytes.
fn expect_puts<S: Store>(
    rt: &impl Abort,
    alloc: Global,
    card: &mut Bench<S>,
    puts: &[(u8, usize, Result<(), PutFault>)],
) -> Result<(), Fail> {
    let mut kept = in_memory(alloc, Kind::Second)?;
    for (last, size, want) in puts {
        let value = value_of(alloc, *size)?;
        let id = object(*last)?;
        expect_call(rt, alloc, card, &mut kept, &Call::Put(id, &value), *want)?;
        if want.is_ok() {
            assert!(rt; card.has_exactly(alloc, id, &value)?, "{last} {size}");
        }
    }
    Ok(())
}

fn expect_puts_over_all(
    rt: &impl Abort,
    alloc: Global,
    puts: &[(u8, usize, Result<(), PutFault>)],
) -> Result<(), Fail> {
    expect_puts(rt, alloc, &mut in_memory(alloc, Kind::Second)?, puts)?;
    let mut twins = stored::<Twins>(alloc, Kind::Second, Vec::new(alloc))?;
    expect_puts(rt, alloc, &mut twins, puts)?;
    let mut blocks = stored::<Blocks>(alloc, Kind::Second, Vec::new(alloc))?;
    expect_puts(rt, alloc, &mut blocks, puts)
}

#[test]
fn values_of_one_byte_to_the_longest_are_read_back(rt: HostRuntime) -> Result<(), Fail> {
    let puts = [
        (0x09, 1, Ok(())),
        (0x09, 63, Ok(())),
        (0x09, 64, Ok(())),
        (0x09, 65, Ok(())),
        (0x09, 16_384, Ok(())),
        (0x09, 16_385, TOO_LARGE),
        (0x09, 16_383, Ok(())),
        (0x09, 0, Ok(())),
        (0x02, 16_384, Ok(())),
    ];
    expect_puts_over_all(&rt, rt.alloc(), &puts)
}

// The card has 2,048 blocks, of which its three objects take one each, and seven of the longest objects 1,792.
#[test]
fn a_card_takes_as_many_blocks_as_its_budget_has(rt: HostRuntime) -> Result<(), Fail> {
    let puts = [
        (0x01, 16_384, Ok(())),
        (0x03, 16_384, Ok(())),
        (0x05, 16_384, Ok(())),
        (0x06, 16_384, Ok(())),
        (0x07, 16_384, Ok(())),
        (0x08, 16_384, Ok(())),
        (0x0A, 16_384, Ok(())),
        (0x0B, 16_384, TOO_LARGE),
        (0x0B, 16_193, TOO_LARGE),
        (0x0B, 16_192, Ok(())),
        (0x0C, 1, TOO_LARGE),
        (0x0C, 0, Ok(())),
        (0x01, 1, TOO_LARGE),
        (0x01, 0, Ok(())),
        (0x0C, 16_384, Ok(())),
        (0x0D, 1, TOO_LARGE),
        (0x02, 0, Ok(())),
        (0x0D, 65, TOO_LARGE),
        (0x0D, 64, Ok(())),
        (0x0E, 1, TOO_LARGE),
    ];
    expect_puts_over_all(&rt, rt.alloc(), &puts)
}
