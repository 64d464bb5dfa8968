// The store in memory.
ghost use Rattle.std.specs.Prelude.{◌≡◌, true, false, None, IfOk};
ghost use Rattle.power_loss.specs.Due.{RisesFrom};
ghost use Rattle.piv_model.specs.Forms.{is_secret, is_pin};
ghost use Rattle.piv_model.specs.Starts.{SpellsMemory};
ghost use Rattle.power_loss.specs.Plans.{write_numbers};

use crate::bench::{Call, LOST, NEW_PIN, PIN, PUK, TOO_LARGE, made};
use memory_store::{Leaves, Loss, MemoryStore};
use piv_model::{KeyId, Lost, ObjectId, PutFault, RefId, Start, Store, object_by_tag, plain_start};
use std::alloc::Global;
use std::process::Abort;
use std::test::Fail;
use test_starts::{global_start, small_start};

const CHUID_TAG: [u8; 3] = [0x5F, 0xC1, 0x02];

const CHUID: [u8; 4] = [0x3E, 0x00, 0xFE, 0x00];

// A value of three blocks.
const LONG: [u8; 130] = [0xA5; 130];

fn object(tag: &[u8]) -> Result<ObjectId, Fail> {
    Ok(object_by_tag(tag).ok_or("no such object")?)
}

fn lost_at(write: u64, how: Leaves) -> Loss
    ensures { result.write ≡ write }
{
    Loss { write, how }
}

// A store with these losses to come, of which nothing is told.
fn untold_store(alloc: Global, start: &Start, losses: &[Loss]) -> Result<MemoryStore, Fail>
    requires spells { SpellsMemory start.now }
    requires rises { RisesFrom 0 (write_numbers losses.now) }
    ensures on { IfOk result (λ store. (⟦<MemoryStore as Store>⟧.state store).power.on ≡ true) }
    ensures untold { IfOk result (λ store. (⟦<MemoryStore as Store>⟧.state store).mem ≡ None) }
{
    let store = MemoryStore::new(alloc, start, losses.to_vec(alloc)?)?;
    Ok(store.untold())
}

// Makes the call, and cuts the power where the call did not lose it. Then the power is on again.
fn expect_call<S: Store>(
    rt: &impl Abort,
    store: &mut S,
    call: &Call<'_>,
    want: Result<(), PutFault>,
    losses: u64,
)
    requires on { (S.state store.old).power.on ≡ true }
    requires untold { (S.state store.old).mem ≡ None }
    ensures on { (S.state store.new).power.on ≡ true }
    ensures untold { (S.state store.new).mem ≡ None }
{
    let answer = made(store, call);
    assert_eq!(rt; answer, want, "{call:?}");
    assert_eq!(rt; store.lost(), losses, "{call:?}");
    if answer != LOST {
        store.cut();
    }
    store.power_up();
    assert_eq!(rt; store.lost(), losses, "{call:?}");
}

// Spends a try, in which no loss comes, and compares.
fn expect_comparison<S: Store>(
    rt: &impl Abort,
    store: &mut S,
    r: RefId,
    candidate: &[u8; 8],
    want: bool,
)
    requires on { (S.state store.old).power.on ≡ true }
    requires untold { (S.state store.old).mem ≡ None }
    ensures on { (S.state store.new).power.on ≡ true }
    ensures untold { (S.state store.new).mem ≡ None }
{
    match store.spend(r) {
        Ok(ticket) => {
            let is_secret = store.matches(ticket, candidate);
            assert_eq!(rt; is_secret, want, "{r:?} {candidate:?}");
        }
        Err(Lost) => panic!(rt; "{r:?} {candidate:?}"),
    }
}

// The tries of PIN and PUK, the PIN, and the CHUID.
#[derive(Clone, Copy)]
struct Held<'a> {
    tries: [u8; 2],
    pin: [u8; 8],
    chuid: &'a [u8],
}

impl Held<'_> {
    fn new(tries: [u8; 2], pin: [u8; 8], chuid: &[u8]) -> Held<'_> {
        Held { tries, pin, chuid }
    }
}

// Expects that the memory holds this after the call, and spends a try of the PIN.
fn expect_held<S: Store>(
    rt: &impl Abort,
    store: &mut S,
    chuid: ObjectId,
    call: &Call<'_>,
    want: &Held<'_>,
)
    requires on { (S.state store.old).power.on ≡ true }
    requires untold { (S.state store.old).mem ≡ None }
    ensures on { (S.state store.new).power.on ≡ true }
    ensures untold { (S.state store.new).mem ≡ None }
{
    let tries = [store.tries(RefId::Pin), store.tries(RefId::Puk)];
    assert_eq!(rt; tries, want.tries, "{call:?}");
    assert!(rt; store.same(chuid, want.chuid), "{call:?}");
    expect_comparison(rt, store, RefId::Pin, &want.pin, true);
}

// Whether `fill` gives this value, and `same` knows it from the values that are one byte shorter or longer.
fn holds<S: Store>(alloc: Global, store: &S, id: ObjectId, value: &[u8]) -> Result<bool, Fail>
    requires { (S.state store.now).power.on ≡ true }
{
    let mut filled = vec![in alloc; 0; store.length(id)]?;
    store.fill(id, &mut filled);
    let mut longer = value.to_vec(alloc)?;
    longer.push(0)?;
    let shorter = &value[..value.len().saturating_sub(1)];
    Ok(
        filled.as_slice() == value
            && store.same(id, value)
            && !store.same(id, &longer)
            && store.same(id, shorter) == value.is_empty(),
    )
}

// The plain card, with no losses to come.
fn plain_store(alloc: Global, is_told: bool) -> Result<MemoryStore, Fail>
    ensures { IfOk result (λ store. (⟦<MemoryStore as Store>⟧.state store).power.on ≡ true) }
{
    let store = MemoryStore::new(alloc, &plain_start(alloc)?, Vec::new(alloc))?;
    if is_told {
        Ok(store)
    } else {
        Ok(store.untold())
    }
}

#[test]
fn a_plain_card_has_its_references_and_objects(rt: HostRuntime) -> Result<(), Fail> {
    let alloc = rt.alloc();
    let objects: [(&[u8], &[u8]); 4] = [
        (&CHUID_TAG, &CHUID),
        (&[0x5F, 0xC1, 0x09], &[0x01, 0x02, 0x41, 0x42, 0xFE, 0x00]),
        (
            &[0x7E],
            b"\x4F\x0B\xA0\0\0\x03\x08\0\0\x10\0\x01\0\x5F\x2F\x02\x40\0",
        ),
        (&[0x5F, 0xC1, 0x07], &[]),
    ];
    let told = MemoryStore::new(alloc, &plain_start(alloc)?, Vec::new(alloc))?;
    for r in [RefId::Pin, RefId::Puk] {
        assert_eq!(rt; told.tries(r), 3);
    }
    for is_told in [true, false] {
        let store = plain_store(alloc, is_told)?;
        assert_eq!(rt; store.lost(), 0);
        assert!(rt; store.has(RefId::Pin));
        assert!(rt; store.has(RefId::Puk));
        assert!(rt; !store.has(RefId::GlobalPin));
        for (tag, value) in objects {
            assert!(rt; holds(alloc, &store, object(tag)?, value)?, "{tag:?}");
        }
    }
    Ok(())
}

#[test]
fn a_start_with_a_global_pin_makes_a_store_that_has_it(rt: HostRuntime) -> Result<(), Fail> {
    let alloc = rt.alloc();
    let store = MemoryStore::new(alloc, &global_start(alloc, 4)?, Vec::new(alloc))?;
    assert!(rt; store.has(RefId::GlobalPin));
    let store = store.untold();
    assert_eq!(rt; store.tries(RefId::GlobalPin), 4);
    assert_eq!(rt; store.tries(RefId::Pin), 3);
    Ok(())
}

// The first vector is that of FIPS 197, appendix C.1. The second one is from OpenSSL.
#[test]
fn a_plain_card_enciphers_under_its_two_keys(rt: HostRuntime) -> Result<(), Fail> {
    let block = 0x00112233445566778899AABBCCDDEEFF_u128.to_be_bytes();
    for is_told in [true, false] {
        let store = plain_store(rt.alloc(), is_told)?;
        for (key, want) in [
            (KeyId::CardAuth, 0x69C4E0D86A7B0430D8CDB78070B4C55A_u128),
            (KeyId::AdminKey, 0xE18A556701FE934A34BA4C026B35F6C1),
        ] {
            assert_eq!(rt; store.algorithm(key), 0x08);
            assert_eq!(rt; store.encipher(key, &block), want.to_be_bytes());
        }
    }
    Ok(())
}

// The told store makes the first two writes, and the untold one loses the fourth.
#[test]
#[tactic(auto, unfolding(piv_model::specs::PlainCard::plain_memory))]
fn an_untold_store_keeps_its_memory_and_its_losses(rt: HostRuntime) -> Result<(), Fail> {
    let alloc = rt.alloc();
    let losses = [lost_at(4, Leaves::New)].to_vec(alloc)?;
    let mut told = MemoryStore::new(alloc, &plain_start(alloc)?, losses)?;
    let spent = told.spend(RefId::Puk);
    let mut store = told.untold();
    match spent {
        Ok(ticket) => MemoryStore::give_up(ticket),
        Err(Lost) => panic!(rt; "the first two writes are lost"),
    }
    assert_eq!(rt; store.tries(RefId::Puk), 2);
    expect_call(&rt, &mut store, &Call::Spend(RefId::Puk), LOST, 1);
    assert_eq!(rt; store.tries(RefId::Puk), 1);
    Ok(())
}

#[test]
fn each_comparison_spends_a_try(rt: HostRuntime) -> Result<(), Fail> {
    let alloc = rt.alloc();
    let mut store = untold_store(alloc, &plain_start(alloc)?, &[])?;
    expect_comparison(&rt, &mut store, RefId::Pin, &PIN, true);
    assert_eq!(rt; store.tries(RefId::Pin), 2);
    expect_comparison(&rt, &mut store, RefId::Pin, b"123456\xff\xfe", false);
    assert_eq!(rt; store.tries(RefId::Pin), 1);
    expect_comparison(&rt, &mut store, RefId::Puk, b"02345678", false);
    expect_comparison(&rt, &mut store, RefId::Puk, &PUK, true);
    assert_eq!(rt; store.tries(RefId::Puk), 1);
    expect_call(&rt, &mut store, &Call::Spend(RefId::Puk), Ok(()), 0);
    assert_eq!(rt; store.tries(RefId::Puk), 0);
    assert_eq!(rt; store.tries(RefId::Pin), 1);
    Ok(())
}

#[test]
fn a_new_secret_stands_in_place_of_the_old_one(rt: HostRuntime) -> Result<(), Fail> {
    let alloc = rt.alloc();
    let mut store = untold_store(alloc, &plain_start(alloc)?, &[])?;
    expect_call(&rt, &mut store, &Call::Renew(RefId::Puk), Ok(()), 0);
    expect_comparison(&rt, &mut store, RefId::Puk, &PUK, false);
    expect_comparison(&rt, &mut store, RefId::Puk, &NEW_PIN, true);
    expect_comparison(&rt, &mut store, RefId::Pin, &PIN, true);
    expect_call(&rt, &mut store, &Call::Unblock, Ok(()), 0);
    expect_comparison(&rt, &mut store, RefId::Puk, &NEW_PIN, true);
    expect_comparison(&rt, &mut store, RefId::Pin, &PIN, false);
    expect_comparison(&rt, &mut store, RefId::Pin, &NEW_PIN, true);
    Ok(())
}

// Puts a value, after which the object has this one.
fn expect_put<S: Store>(
    rt: &impl Abort,
    alloc: Global,
    store: &mut S,
    value: &[u8],
    want: Result<(), PutFault>,
    after: &[u8],
) -> Result<(), Fail>
    requires on { (S.state store.old).power.on ≡ true }
    requires untold { (S.state store.old).mem ≡ None }
    ensures on { (S.state store.new).power.on ≡ true }
    ensures untold { (S.state store.new).mem ≡ None }
{
    let id = object(&[0x5F, 0xC1, 0x05])?;
    expect_call(rt, store, &Call::Put(id, value), want, 0);
    assert!(rt; holds(alloc, store, id, after)?, "{value:?}");
    Ok(())
}

#[test]
fn a_value_of_16384_bytes_is_put_and_a_longer_one_is_not(rt: HostRuntime) -> Result<(), Fail> {
    let alloc = rt.alloc();
    let longest = vec![in alloc; 7; 16_384]?;
    let longer = vec![in alloc; 8; 16_385]?;
    let mut store = untold_store(alloc, &plain_start(alloc)?, &[])?;
    expect_put(&rt, alloc, &mut store, &LONG, Ok(()), &LONG)?;
    expect_put(&rt, alloc, &mut store, &longest, Ok(()), &longest)?;
    expect_put(&rt, alloc, &mut store, &longer, TOO_LARGE, &longest)?;
    expect_put(&rt, alloc, &mut store, &[], Ok(()), &[])?;
    expect_put(&rt, alloc, &mut store, &longer, TOO_LARGE, &[])?;
    assert!(rt; holds(alloc, &store, object(&CHUID_TAG)?, &CHUID)?);
    Ok(())
}

#[test]
fn a_value_has_room_beside_the_one_that_it_replaces(rt: HostRuntime) -> Result<(), Fail> {
    let alloc = rt.alloc();
    let mut store = untold_store(alloc, &small_start(alloc)?, &[])?;
    expect_put(&rt, alloc, &mut store, &LONG[..129], TOO_LARGE, &[])?;
    expect_put(&rt, alloc, &mut store, &LONG[..128], Ok(()), &LONG[..128])?;
    expect_put(&rt, alloc, &mut store, &[7; 128], TOO_LARGE, &LONG[..128])?;
    expect_put(&rt, alloc, &mut store, &[7], TOO_LARGE, &LONG[..128])?;
    expect_put(&rt, alloc, &mut store, &[], Ok(()), &[])?;
    expect_put(&rt, alloc, &mut store, &[7; 128], Ok(()), &[7; 128])?;
    Ok(())
}

// A store of which a try of the PIN and one of the PUK were spent, in four writes. So many writes later
// it loses power.
fn spent_store(
    rt: &impl Abort,
    alloc: Global,
    made: u8,
    leaves: Leaves,
) -> Result<MemoryStore, Fail>
    ensures on { IfOk result (λ store. (⟦<MemoryStore as Store>⟧.state store).power.on ≡ true) }
    ensures untold { IfOk result (λ store. (⟦<MemoryStore as Store>⟧.state store).mem ≡ None) }
{
    let losses = [lost_at(u64::from(made) + 5, leaves)];
    let mut store = untold_store(alloc, &plain_start(alloc)?, &losses)?;
    expect_call(rt, &mut store, &Call::Spend(RefId::Pin), Ok(()), 0);
    expect_call(rt, &mut store, &Call::Spend(RefId::Puk), Ok(()), 0);
    Ok(store)
}

// Each write of the call is lost in turn, and then the one behind them.
fn expect_losses(
    rt: &impl Abort,
    alloc: Global,
    chuid: ObjectId,
    call: &Call<'_>,
    writes: u8,
    new: &Held<'_>,
) -> Result<(), Fail> {
    let old = Held::new([2, 2], PIN, &CHUID);
    for made in 0..writes {
        for (leaves, want) in [(Leaves::Old, &old), (Leaves::New, new)] {
            let mut store = spent_store(rt, alloc, made, leaves)?;
            expect_call(rt, &mut store, call, LOST, 1);
            expect_held(rt, &mut store, chuid, call, want);
            expect_call(rt, &mut store, call, Ok(()), 1);
        }
    }
    let mut store = spent_store(rt, alloc, writes, Leaves::Old)?;
    expect_call(rt, &mut store, call, Ok(()), 0);
    expect_call(rt, &mut store, &Call::Restore(RefId::Puk), LOST, 1);
    expect_held(rt, &mut store, chuid, call, new);
    Ok(())
}

#[test]
fn a_lost_call_leaves_the_old_or_the_new_memory(rt: HostRuntime) -> Result<(), Fail> {
    let alloc = rt.alloc();
    let id = object(&CHUID_TAG)?;
    for (call, writes, new) in &[
        (Call::Spend(RefId::Puk), 2, Held::new([2, 1], PIN, &CHUID)),
        (Call::Restore(RefId::Pin), 2, Held::new([3, 2], PIN, &CHUID)),
        (
            Call::Renew(RefId::Pin),
            2,
            Held::new([3, 2], NEW_PIN, &CHUID),
        ),
        (Call::Unblock, 2, Held::new([3, 3], NEW_PIN, &CHUID)),
        (Call::Put(id, &LONG), 5, Held::new([2, 2], PIN, &LONG)),
        (Call::Put(id, &[]), 2, Held::new([2, 2], PIN, &[])),
    ] {
        expect_losses(&rt, alloc, id, call, *writes, new)?;
    }
    Ok(())
}

#[test]
fn losses_come_at_the_writes_of_the_list(rt: HostRuntime) -> Result<(), Fail> {
    let alloc = rt.alloc();
    let losses = [
        lost_at(2, Leaves::New),
        lost_at(4, Leaves::Old),
        lost_at(6, Leaves::New),
    ];
    let mut store = untold_store(alloc, &plain_start(alloc)?, &losses)?;
    let spend = Call::Spend(RefId::Puk);
    expect_call(&rt, &mut store, &spend, LOST, 1);
    assert_eq!(rt; store.tries(RefId::Puk), 2);
    expect_call(&rt, &mut store, &spend, LOST, 2);
    assert_eq!(rt; store.tries(RefId::Puk), 2);
    expect_call(&rt, &mut store, &spend, LOST, 3);
    assert_eq!(rt; store.tries(RefId::Puk), 1);
    expect_call(&rt, &mut store, &spend, Ok(()), 3);
    assert_eq!(rt; store.tries(RefId::Puk), 0);
    Ok(())
}

// Five writes put the long value. The second loss is counted from the first one.
#[test]
fn a_lost_call_makes_no_write_behind_its_loss(rt: HostRuntime) -> Result<(), Fail> {
    let alloc = rt.alloc();
    let id = object(&CHUID_TAG)?;
    let put = Call::Put(id, &LONG);
    let spend = Call::Spend(RefId::Puk);
    let losses = [lost_at(2, Leaves::Old), lost_at(5, Leaves::New)];
    let mut store = untold_store(alloc, &plain_start(alloc)?, &losses)?;
    expect_call(&rt, &mut store, &put, LOST, 1);
    assert!(rt; store.same(id, &CHUID));
    expect_call(&rt, &mut store, &spend, Ok(()), 1);
    expect_call(&rt, &mut store, &put, LOST, 2);
    assert!(rt; store.same(id, &LONG));
    expect_call(&rt, &mut store, &spend, Ok(()), 2);
    Ok(())
}

fn moves<T: Send>(value: T) -> T
    ensures { result ≡ value }
{
    value
}

#[test]
fn a_store_and_a_loss_move_between_threads(rt: HostRuntime) -> Result<(), Fail> {
    let alloc = rt.alloc();
    let losses = [moves(lost_at(1, Leaves::New))].to_vec(alloc)?;
    let store = MemoryStore::new(alloc, &plain_start(alloc)?, losses)?;
    assert_eq!(rt; moves(store).lost(), 0);
    Ok(())
}
