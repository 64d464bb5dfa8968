ghost use Rattle.std.specs.Prelude.{◌≡◌, ◌+◌, ◌<◌, ◌≤◌, true, length, List, [], ◌∷◌, ℕ, IfOk, OnOk, OnErr};
ghost use Rattle.nvm_device.specs.Device.{DeviceState};
ghost use Rattle.nvm_slots.specs.Laying.{Area, Piece, Laying, Fell, FrontKept};

use crate::{Twin, lay};
use nvm_device::{Fused, How, Loss, Lost, MemNvm, Nvm, Pattern};
use std::alloc::{AllocError, Global};
use std::process::Abort;
use std::test::Fail;

const TWIN: Twin = Twin {
    selector: 2,
    slot: [3, 11],
    size: 8,
};

const SLOT_0: [u8; 8] = [10, 11, 12, 13, 14, 15, 16, 17];

const SLOT_1: [u8; 8] = [20, 21, 22, 23, 24, 25, 26, 27];

const NEW: [u8; 8] = [30, 31, 32, 33, 34, 35, 36, 37];

// Bytes around a record whose selector is this.
fn image(selector: u8) -> [u8; 24] {
    let mut row = [99; 24];
    row[2] = selector;
    row[3..11].copy_from_slice(&SLOT_0);
    row[11..19].copy_from_slice(&SLOT_1);
    row
}

fn device(alloc: Global, selector: u8) -> Result<MemNvm, Fail>
    ensures on { IfOk result (λ nvm. (⟦<MemNvm as Nvm>⟧.state nvm).power.on ≡ true) }
    ensures size { IfOk result (λ nvm. (⟦<MemNvm as Nvm>⟧.state nvm).size ≡ 24) }
{
    let mut nvm = MemNvm::new(alloc, 24)?;
    let _written = nvm.write(0, &image(selector));
    nvm.power();
    Ok(nvm)
}

fn one_loss(alloc: Global, write: u64, how: How) -> Result<Vec<Loss>, AllocError>
    ensures { IfOk result (λ plan. plan.items ≡ record { write = write; how = how } ∷ []) }
{
    let mut plan = Vec::new(alloc);
    plan.push(Loss { write, how })?;
    Ok(plan)
}

fn read<N: Nvm>(nvm: &N) -> [u8; 8]
    requires on { (N.state nvm.now).power.on ≡ true }
    requires size { (N.state nvm.now).size ≡ 24 }
{
    let mut out = [0; 8];
    TWIN.read(nvm, &mut out);
    out
}

fn row<N: Nvm>(nvm: &N) -> [u8; 24]
    requires on { (N.state nvm.now).power.on ≡ true }
    requires size { (N.state nvm.now).size ≡ 24 }
{
    let mut out = [0; 24];
    nvm.read(0, &mut out);
    out
}

// Replaces the record, and says whether that was lost; then the power is on again.
fn loses<N: Nvm>(nvm: &mut N, bytes: [u8; 8]) -> bool
    requires on { (N.state nvm.old).power.on ≡ true }
    requires size { (N.state nvm.old).size ≡ 24 }
    ensures on { (N.state nvm.new).power.on ≡ true }
    ensures size { (N.state nvm.new).size ≡ 24 }
{
    let lost = TWIN.replace(nvm, &bytes).is_err();
    nvm.power();
    lost
}

// A replacement is cut short by a loss, and what is read then is this. Another one is not.
fn expect_after_loss(
    rt: &impl Abort,
    alloc: Global,
    selector: u8,
    write: u64,
    how: How,
    want: [u8; 8],
) -> Result<(), Fail>
    requires { 0 < write }
{
    let mut nvm = Fused::new(device(alloc, selector)?, one_loss(alloc, write, how)?);
    assert!(rt;
        loses(&mut nvm, NEW),
        "write {write} from selector {selector}"
    );
    assert_eq!(rt; read(&nvm), want, "write {write} from selector {selector}");
    assert!(rt; !loses(&mut nvm, [5; 8]));
    assert_eq!(rt; read(&nvm), [5; 8]);
    let after = row(&nvm);
    assert!(rt; after[2] < 2);
    assert!(rt; after[..2] == [99; 2]);
    assert!(rt; after[19..] == [99; 5]);
    Ok(())
}

fn torn(bytes: &[u8]) -> How
    requires some { 0 < length bytes.now }
    requires few { length bytes.now ≤ 16 }
{
    How::Torn(Pattern::new(bytes))
}

// What stands after a loss that leaves this. Lost with the slot, the old record; lost with the
// selector, these, as the live slot was 0 or 1.
fn expect_of_how(
    rt: &impl Abort,
    alloc: Global,
    how: How,
    from_0: [u8; 8],
    from_1: [u8; 8],
) -> Result<(), Fail> {
    for (selector, old, want) in [
        (0, SLOT_0, from_0),
        (1, SLOT_1, from_1),
        (0xab, SLOT_1, from_1),
        (0xfe, SLOT_0, from_0),
        (0xff, SLOT_1, from_1),
    ] {
        expect_after_loss(rt, alloc, selector, 1, how.copy(), old)?;
        expect_after_loss(rt, alloc, selector, 2, how.copy(), want)?;
    }
    Ok(())
}

#[test]
fn a_lost_write_leaves_the_old_or_the_new_record(rt: HostRuntime) -> Result<(), Fail> {
    let alloc = rt.alloc();
    let longer = [
        16, 17, 18, 19, 20, 21, 22, 23, 24, 25, 26, 27, 28, 29, 30, 31,
    ];
    for (how, from_0, from_1) in [
        (How::Before, SLOT_0, SLOT_1),
        (torn(&[0x00]), SLOT_0, NEW),
        (torn(&[0x01]), NEW, SLOT_1),
        (torn(&[0xff]), NEW, SLOT_1),
        (torn(&[0xab]), NEW, SLOT_1),
        (torn(&longer), SLOT_0, NEW),
        (How::After, NEW, NEW),
    ] {
        expect_of_how(&rt, alloc, how, from_0, from_1)?;
    }
    Ok(())
}

#[test]
fn losses_at_three_writes_cut_three_replacements_short(rt: HostRuntime) -> Result<(), Fail> {
    let alloc = rt.alloc();
    let mut plan = Vec::new(alloc);
    plan.push(Loss {
        write: 1,
        how: torn(&[7]),
    })?;
    plan.push(Loss {
        write: 5,
        how: How::Before,
    })?;
    plan.push(Loss {
        write: 7,
        how: How::After,
    })?;
    let mut nvm = Fused::new(device(alloc, 0)?, plan);
    assert!(rt; loses(&mut nvm, [1; 8]));
    assert_eq!(rt; read(&nvm), SLOT_0);
    assert!(rt; !loses(&mut nvm, [2; 8]));
    assert_eq!(rt; read(&nvm), [2; 8]);
    assert!(rt; loses(&mut nvm, [3; 8]));
    assert_eq!(rt; read(&nvm), [2; 8]);
    assert!(rt; loses(&mut nvm, [4; 8]));
    assert_eq!(rt; read(&nvm), [4; 8]);
    assert!(rt; !loses(&mut nvm, [5; 8]));
    assert_eq!(rt; read(&nvm), [5; 8]);
    assert_eq!(rt; nvm.lost(), 3);
    Ok(())
}

// The write of the selector is lost twice, by the plan and by the device under it.
#[test]
fn a_record_survives_a_device_that_loses_too(rt: HostRuntime) -> Result<(), Fail> {
    let alloc = rt.alloc();
    for (below, want) in [(torn(&[0xaa]), SLOT_0), (torn(&[0x55]), NEW)] {
        let inner = Fused::new(device(alloc, 0)?, one_loss(alloc, 2, below)?);
        let mut nvm = Fused::new(inner, one_loss(alloc, 2, How::After)?);
        assert!(rt; loses(&mut nvm, NEW));
        assert_eq!(rt; nvm.lost(), 2);
        assert_eq!(rt; read(&nvm), want);
        assert!(rt; !loses(&mut nvm, [5; 8]));
        assert_eq!(rt; read(&nvm), [5; 8]);
    }
    Ok(())
}

// A record of 20 bytes with its selector at place 8: the new one stands in the other slot, and the
// old one stays.
#[test]
fn replaces_the_record_in_the_other_slot(rt: HostRuntime) -> Result<(), Fail> {
    let twin = Twin {
        selector: 8,
        slot: [9, 29],
        size: 20,
    };
    let mut nvm = MemNvm::new(rt.alloc(), 64)?;
    assert!(rt;
        nvm.write(9, b"\x03\x03123456\xff\xff\x03\x0312345678")
            .is_ok()
    );
    assert!(rt; twin.replace(&mut nvm, b"\x03\x02123456\xff\xff").is_ok());
    let mut live = [0; 10];
    twin.read(&nvm, &mut live);
    assert_eq!(rt; live, *b"\x03\x02123456\xff\xff");
    let mut row = [0; 64];
    nvm.read(0, &mut row);
    assert!(rt; row[..8] == [0; 8]);
    assert!(rt; row[8..10] == [1, 3]);
    assert!(rt; row[29..31] == [3, 2]);
    Ok(())
}

// Lays a byte and a word behind it, from place 4 of 64 on.
fn lay_word<N: Nvm>(nvm: &mut N, place: usize, byte: u8, word: &[u8; 4]) -> Result<(), Lost>
    requires on { (N.state nvm.old).power.on ≡ true }
    requires size { 64 ≤ (N.state nvm.old).size }
    requires behind { 4 ≤ place }
    requires within { place ≤ 32 }
    ensures long { length word.now ≡ 4 }
    ensures laid { let area : Area = record { front = 4; size = 64 } in
        OnOk result ((pieces : List Piece) (end : ℕ) (s : DeviceState) → end ≤ place
        → Laying area pieces end s (N.state nvm.old)
        → Laying area ((place + 1, word.now) ∷ (place, byte ∷ []) ∷ pieces) (place + 5) s (N.state nvm.new)) }
    ensures on { OnOk result ((N.state nvm.new).power.on ≡ true) }
    ensures size { OnOk result ((N.state nvm.new).size ≡ (N.state nvm.old).size) }
    ensures fell { let area : Area = record { front = 4; size = 64 } in
        OnErr result ((pieces : List Piece) (end : ℕ) (s : DeviceState) → end ≤ place
        → Laying area pieces end s (N.state nvm.old) → Fell (FrontKept area) s (N.state nvm.new)) }
{
    lay(nvm, place, &[byte])?;
    lay(nvm, place + 1, word)?;
    Ok(())
}

#[test]
fn pieces_are_laid_one_behind_the_other(rt: HostRuntime) -> Result<(), Fail> {
    let mut nvm = MemNvm::new(rt.alloc(), 64)?;
    assert!(rt; lay_word(&mut nvm, 4, 7, b"word").is_ok());
    nvm.power();
    let mut row = [9; 10];
    nvm.read(0, &mut row);
    assert_eq!(rt; row, *b"\0\0\0\0\x07word\0");
    Ok(())
}

fn moves<T: Send>(value: T) -> T {
    value
}

#[test]
fn a_record_moves_between_threads(rt: HostRuntime) {
    assert_eq!(rt; moves(TWIN).size, 8);
}
