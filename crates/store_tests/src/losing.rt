// Losses at every write of every call, again after each recovery.
ghost use Rattle.std.specs.Prelude.{◌<◌};

use crate::bench::{Bench, Call, LOST, have_same_secrets, read_alike};
use crate::cards::{Kind, in_memory_under, object, stored};
use crate::left::{LEFT, Left, two_losses};
use block_store::Blocks;
use card_image::Objects;
use memory_store::{Leaves, MemoryStore};
use piv_model::{RefId, Store};
use std::alloc::Global;
use std::process::Abort;
use std::test::Fail;
use twin_store::Twins;

// A value of three blocks.
const LONG: [u8; 130] = [0xA5; 130];

// Spends a try of the PIN and one of the PUK, in four writes.
fn spent<S: Store>(rt: &impl Abort, bench: &mut Bench<S>) {
    assert_eq!(rt; bench.make(&Call::Spend(RefId::Pin)), Ok(()));
    assert_eq!(rt; bench.make(&Call::Spend(RefId::Puk)), Ok(()));
}

// A call is lost in a write, the last one of its writes or one before it.
#[derive(Clone, Copy, Debug)]
struct Case {
    kind: Kind,
    write: u8,
    is_last: bool,
    left: Left,
}

impl Case {
    // Which slot is live behind the loss.
    fn live(self, is_second: bool) -> bool {
        if !self.is_last {
            return is_second;
        }
        self.left.byte(u8::from(is_second), u8::from(!is_second)) % 2 == 1
    }

    // Which memory stands behind the loss.
    fn leaves(self, is_second: bool) -> Leaves {
        if self.live(is_second) == is_second {
            Leaves::Old
        } else {
            Leaves::New
        }
    }
}

// The card in memory, which loses the same writes.
fn lost_in_memory(alloc: Global, case: Case) -> Result<Bench<MemoryStore>, Fail>
    requires { 0 < case.write }
{
    let first = case.leaves(false);
    let second = case.leaves(case.live(false));
    let losses = two_losses(alloc, case.write, first, second)?;
    in_memory_under(alloc, case.kind, losses)
}

// The memory of the store is the old or the new one, by the slot that is live, and that of the store in memory too.
fn expect_loss<O: Objects>(
    rt: &impl Abort,
    alloc: Global,
    call: &Call<'_>,
    case: Case,
) -> Result<(), Fail>
    requires { 0 < case.write }
{
    let losses = two_losses(alloc, case.write, case.left.how(), case.left.how())?;
    let mut lost = stored::<O>(alloc, case.kind, losses)?;
    let mut kept = lost_in_memory(alloc, case)?;
    spent(rt, &mut lost);
    spent(rt, &mut kept);
    for losses in 1..=2 {
        assert_eq!(rt; lost.make(call), LOST, "{call:?} {case:?}");
        assert_eq!(rt; kept.make(call), LOST, "{call:?} {case:?}");
        assert_eq!(rt; lost.losses(), losses, "{call:?} {case:?}");
        assert_eq!(rt; kept.losses(), losses, "{call:?} {case:?}");
        assert!(rt; read_alike(alloc, &lost, &kept)?, "{call:?} {case:?}");
    }
    assert!(rt;
        have_same_secrets(&mut lost, &mut kept)?,
        "{call:?} {case:?}"
    );
    Ok(())
}

// The call is lost in each of its writes.
fn expect_losses<O: Objects>(
    rt: &impl Abort,
    alloc: Global,
    kind: Kind,
    call: &Call<'_>,
    writes: u8,
) -> Result<(), Fail> {
    for write in 1..=writes {
        for left in LEFT {
            let case = Case {
                kind,
                write,
                is_last: write == writes,
                left,
            };
            expect_loss::<O>(rt, alloc, call, case)?;
        }
    }
    Ok(())
}

// Each call, and puts of these values, each in so many writes.
fn expect_all_losses<O: Objects>(
    rt: &impl Abort,
    alloc: Global,
    puts: &[(&[u8], u8)],
) -> Result<(), Fail> {
    let chuid = object(0x02)?;
    for kind in [Kind::First, Kind::Second, Kind::Global] {
        for r in [RefId::Pin, RefId::Puk] {
            expect_losses::<O>(rt, alloc, kind, &Call::Spend(r), 2)?;
            expect_losses::<O>(rt, alloc, kind, &Call::Restore(r), 2)?;
            expect_losses::<O>(rt, alloc, kind, &Call::Renew(r), 2)?;
        }
        expect_losses::<O>(rt, alloc, kind, &Call::Unblock, 2)?;
        for (value, writes) in puts {
            expect_losses::<O>(rt, alloc, kind, &Call::Put(chuid, value), *writes)?;
        }
    }
    expect_losses::<O>(rt, alloc, Kind::Global, &Call::Spend(RefId::GlobalPin), 2)?;
    expect_losses::<O>(rt, alloc, Kind::Global, &Call::Renew(RefId::GlobalPin), 2)
}

#[test]
fn a_lost_call_leaves_the_old_or_the_new_memory_in_twin_records(
    rt: HostRuntime,
) -> Result<(), Fail> {
    let puts = [(LONG.as_slice(), 2), (&LONG[..64], 2), (&[], 2)];
    expect_all_losses::<Twins>(&rt, rt.alloc(), &puts)
}

#[test]
fn a_lost_call_leaves_the_old_or_the_new_memory_in_blocks(rt: HostRuntime) -> Result<(), Fail> {
    let puts = [
        (LONG.as_slice(), 5),
        (&LONG[..65], 4),
        (&LONG[..64], 3),
        (&LONG[..63], 3),
        (&LONG[..1], 3),
        (&[], 2),
    ];
    expect_all_losses::<Blocks>(&rt, rt.alloc(), &puts)
}
