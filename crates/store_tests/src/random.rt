// Random puts and removals over all places.
ghost use Rattle.std.specs.Prelude.{◌<◌};

use crate::bench::{Bench, Call, read_alike};
use crate::cards::{Kind, in_memory, object, stored};
use block_store::Blocks;
use piv_model::{ObjectId, Store, discovery_value};
use std::alloc::Global;
use std::process::Abort;
use std::test::Fail;
use twin_store::Twins;

// Numbers by Knuth's generator of 64 bits.
#[derive(Drop)]
struct Numbers {
    last: u64,
}

impl Numbers {
    // A number below this one.
    fn below(&mut self, end: u64) -> u64
        requires { 0 < end }
        ensures { result < end }
    {
        self.last = self
            .last
            .wrapping_mul(6_364_136_223_846_793_005)
            .wrapping_add(1_442_695_040_888_963_407);
        (self.last >> 33) % end
    }
}

// An object other than the Discovery Object. There is none with the tag 5FC104.
fn any_object(numbers: &mut Numbers) -> Result<ObjectId, Fail> {
    let last = numbers.below(0x21) as u8;
    object(if last == 0x04 { 0x21 } else { last.max(1) })
}

// A value, which is empty for a removal, or short, or any.
fn any_value(alloc: Global, numbers: &mut Numbers) -> Result<Vec<u8>, Fail> {
    let most = match numbers.below(4) {
        0 => 0,
        1 => 130,
        _ => 16_384,
    };
    let size = numbers.below(most + 1) as usize;
    Ok(vec![in alloc; numbers.below(256) as u8; size]?)
}

// A store and the one in memory answer 200 puts alike. It says how many were refused.
fn refused<S: Store>(rt: &impl Abort, alloc: Global, card: &mut Bench<S>) -> Result<u8, Fail> {
    let mut kept = in_memory(alloc, Kind::Second)?;
    let mut numbers = Numbers { last: 2_026 };
    let mut refused = 0u8;
    for _step in 0..200 {
        let id = any_object(&mut numbers)?;
        let value = any_value(alloc, &mut numbers)?;
        let call = Call::Put(id, &value);
        let answer = card.make(&call);
        assert_eq!(rt; answer, kept.make(&call));
        assert!(rt; read_alike(alloc, card, &kept)?);
        if answer.is_err() {
            refused = refused.saturating_add(1);
        }
    }
    Ok(refused)
}

// The Discovery Object is removed and put in place again.
fn expect_discovery<S: Store>(
    rt: &impl Abort,
    alloc: Global,
    card: &mut Bench<S>,
) -> Result<(), Fail> {
    let id = ObjectId::discovery();
    for value in [&[], discovery_value([0x40, 0x00]).as_slice()] {
        assert_eq!(rt; card.make(&Call::Put(id, value)), Ok(()));
        assert!(rt; card.has_exactly(alloc, id, value)?);
    }
    Ok(())
}

fn expect_refusals<S: Store>(
    rt: &impl Abort,
    alloc: Global,
    card: &mut Bench<S>,
) -> Result<(), Fail> {
    let refused = refused(rt, alloc, card)?;
    assert!(rt; 10 < refused && refused < 190, "{refused}");
    Ok(())
}

#[test]
fn random_puts_over_twin_records_are_those_in_memory(rt: HostRuntime) -> Result<(), Fail> {
    let alloc = rt.alloc();
    let mut card = stored::<Twins>(alloc, Kind::Second, Vec::new(alloc))?;
    expect_discovery(&rt, alloc, &mut card)?;
    expect_refusals(&rt, alloc, &mut card)
}

#[test]
fn random_puts_over_blocks_are_those_in_memory(rt: HostRuntime) -> Result<(), Fail> {
    let alloc = rt.alloc();
    let mut card = stored::<Blocks>(alloc, Kind::Second, Vec::new(alloc))?;
    expect_discovery(&rt, alloc, &mut card)?;
    expect_refusals(&rt, alloc, &mut card)
}
