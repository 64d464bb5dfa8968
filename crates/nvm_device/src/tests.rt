ghost use Rattle.std.specs.Prelude.{◌≡◌, ◌+◌, ◌-◌, ◌^◌, ◌<◌, ◌≤◌, true, length, [], ◌∷◌, None, IfOk};
ghost use Rattle.std.proofs.Common.{lit<};

use crate::{Fused, How, Loss, Lost, MemNvm, Nvm, Pattern};
use std::alloc::{AllocError, Global};
use std::process::Abort;
use std::test::Fail;

// Writes, and says whether that was lost; then the power is on again.
fn loses<N: Nvm>(nvm: &mut N, place: usize, bytes: &[u8]) -> bool
    requires on { (N.state nvm.old).power.on ≡ true }
    requires range { place + length bytes.now ≤ (N.state nvm.old).size }
    requires some { 0 < length bytes.now }
    ensures on { (N.state nvm.new).power.on ≡ true }
    ensures size { (N.state nvm.new).size ≡ (N.state nvm.old).size }
{
    match nvm.write(place, bytes) {
        Ok(()) => false,
        Err(Lost) => {
            nvm.power();
            true
        }
    }
}

// Writes this byte to the place before its own number. It says whether that is to be lost, and how
// many losses are counted then.
fn expect_write<N: Nvm>(rt: &impl Abort, nvm: &mut N, byte: u8, is_lost: bool, losses: u64)
    requires on { (N.state nvm.old).power.on ≡ true }
    requires some { 0 < byte }
    requires range { byte ≤ (N.state nvm.old).size }
    ensures on { (N.state nvm.new).power.on ≡ true }
    ensures size { (N.state nvm.new).size ≡ (N.state nvm.old).size }
{
    assert_eq!(rt;
        loses(nvm, byte as usize - 1, &[byte]),
        is_lost,
        "at {byte}"
    );
    assert_eq!(rt; nvm.lost(), losses, "at {byte}");
}

fn first_eight<N: Nvm>(nvm: &N) -> [u8; 8]
    requires on { (N.state nvm.now).power.on ≡ true }
    requires size { 8 ≤ (N.state nvm.now).size }
{
    let mut row = [0; 8];
    nvm.read(0, &mut row);
    row
}

fn one_loss(alloc: Global, loss: Loss) -> Result<Vec<Loss>, AllocError>
    ensures { IfOk result (λ plan. plan.items ≡ loss ∷ []) }
{
    let mut plan = Vec::new(alloc);
    plan.push(loss)?;
    Ok(plan)
}

fn after(write: u64) -> Loss
    ensures { result.write ≡ write }
{
    Loss {
        write,
        how: How::After,
    }
}

#[test]
fn a_new_device_is_zero_and_keeps_its_bytes_over_a_cut(rt: HostRuntime) -> Result<(), Fail> {
    let mut nvm = MemNvm::new(rt.alloc(), 1_114_112)?;
    assert_eq!(rt; nvm.size(), 1_114_112);
    let mut end = [1; 2];
    nvm.read(1_114_110, &mut end);
    assert_eq!(rt; end, [0, 0]);
    assert!(rt; !loses(&mut nvm, 1_114_110, &[7, 8]));
    nvm.cut();
    nvm.power();
    nvm.read(1_114_110, &mut end);
    assert_eq!(rt; end, [7, 8]);
    assert_eq!(rt; nvm.lost(), 0);
    Ok(())
}

// Writes two bytes at a place, and then reads four at another.
fn expect_four<N: Nvm>(
    rt: &impl Abort,
    nvm: &mut N,
    place: usize,
    bytes: [u8; 2],
    from: usize,
    want: [u8; 4],
)
    requires on { (N.state nvm.old).power.on ≡ true }
    requires write { place + 2 ≤ (N.state nvm.old).size }
    requires read { from + 4 ≤ (N.state nvm.old).size }
    ensures on { (N.state nvm.new).power.on ≡ true }
    ensures size { (N.state nvm.new).size ≡ (N.state nvm.old).size }
{
    assert!(rt; !loses(nvm, place, &bytes));
    let mut four = [1; 4];
    nvm.read(from, &mut four);
    assert_eq!(rt; four, want, "at {from}");
}

// Reads and writes before, across and behind the last byte that was written.
#[test]
fn bytes_that_were_never_written_are_zero(rt: HostRuntime) -> Result<(), Fail> {
    let mut nvm = MemNvm::new(rt.alloc(), 100)?;
    expect_four(&rt, &mut nvm, 3, [1, 2], 3, [1, 2, 0, 0]);
    expect_four(&rt, &mut nvm, 90, [3, 4], 88, [0, 0, 3, 4]);
    expect_four(&rt, &mut nvm, 91, [5, 6], 90, [3, 5, 6, 0]);
    expect_four(&rt, &mut nvm, 4, [7, 8], 2, [0, 1, 7, 8]);
    expect_four(&rt, &mut nvm, 40, [9, 10], 96, [0, 0, 0, 0]);
    expect_four(&rt, &mut nvm, 98, [11, 12], 92, [6, 0, 0, 0]);
    assert_eq!(rt; nvm.size(), 100);
    Ok(())
}

// The second write is lost: the bytes 21 to 24 from place 2 on, over the bytes 1 to 8.
#[test]
fn a_lost_write_leaves_what_its_plan_says(rt: HostRuntime) -> Result<(), Fail> {
    let alloc = rt.alloc();
    let rows = [
        (How::Before, [1, 2, 3, 4, 5, 6, 7, 8]),
        (How::Torn(Pattern::new(&[0])), [1, 2, 0, 0, 0, 0, 7, 8]),
        (How::Torn(Pattern::new(&[1])), [1, 2, 1, 1, 1, 1, 7, 8]),
        (
            How::Torn(Pattern::new(&[255])),
            [1, 2, 255, 255, 255, 255, 7, 8],
        ),
        (
            How::Torn(Pattern::new(&[9, 10, 11])),
            [1, 2, 9, 10, 11, 9, 7, 8],
        ),
        (
            How::Torn(Pattern::new(&[9, 10, 11, 12, 13])),
            [1, 2, 9, 10, 11, 12, 7, 8],
        ),
        (How::After, [1, 2, 21, 22, 23, 24, 7, 8]),
    ];
    for (how, want) in rows {
        let plan = one_loss(alloc, Loss { write: 2, how })?;
        let mut nvm = Fused::new(MemNvm::new(alloc, 8)?, plan);
        assert!(rt; !loses(&mut nvm, 0, &[1, 2, 3, 4, 5, 6, 7, 8]));
        assert!(rt; loses(&mut nvm, 2, &[21, 22, 23, 24]));
        assert_eq!(rt; nvm.lost(), 1);
        assert_eq!(rt; first_eight(&nvm), want);
        assert!(rt; !loses(&mut nvm, 0, &[31]));
        assert_eq!(rt; nvm.into_inner().lost(), 0);
    }
    Ok(())
}

#[test]
fn loses_the_writes_of_its_plan_and_no_others(rt: HostRuntime) -> Result<(), Fail> {
    let alloc = rt.alloc();
    let mut plan = Vec::new(alloc);
    plan.push(Loss {
        write: 1,
        how: How::Before,
    })?;
    plan.push(after(2))?;
    plan.push(Loss {
        write: 5,
        how: How::Torn(Pattern::new(&[99])),
    })?;
    let mut nvm = Fused::new(MemNvm::new(alloc, 8)?, plan);
    expect_write(&rt, &mut nvm, 1, true, 1);
    expect_write(&rt, &mut nvm, 2, true, 2);
    expect_write(&rt, &mut nvm, 3, false, 2);
    expect_write(&rt, &mut nvm, 4, false, 2);
    expect_write(&rt, &mut nvm, 5, true, 3);
    expect_write(&rt, &mut nvm, 6, false, 3);
    nvm.cut();
    nvm.power();
    assert_eq!(rt; nvm.size(), 8);
    assert_eq!(rt; nvm.lost(), 3);
    assert_eq!(rt; first_eight(&nvm), [0, 2, 3, 4, 99, 6, 0, 0]);
    Ok(())
}

// The inner device loses its writes 1 and 2, and the plan the writes 1 and 3.
#[test]
fn losses_of_the_inner_device_count_beside_the_planned_ones(rt: HostRuntime) -> Result<(), Fail> {
    let alloc = rt.alloc();
    let mut below = Vec::new(alloc);
    below.push(after(1))?;
    below.push(after(2))?;
    let mut above = Vec::new(alloc);
    above.push(after(1))?;
    above.push(after(3))?;
    let mut nvm = Fused::new(Fused::new(MemNvm::new(alloc, 8)?, below), above);
    expect_write(&rt, &mut nvm, 1, true, 2);
    expect_write(&rt, &mut nvm, 2, true, 3);
    expect_write(&rt, &mut nvm, 3, true, 4);
    expect_write(&rt, &mut nvm, 4, false, 4);
    assert_eq!(rt; nvm.into_inner().lost(), 2);
    Ok(())
}

// A device that tells neither its bytes nor its losses to come, and has lost power as often as can
// be counted.
#[derive(Drop)]
struct Worn {
    row: [u8; 8],
    on: bool,
    loses: bool,
}

impl Nvm for Worn {
    ghost state = { λ w. record {
      size = 8;
      bytes = None;
      power = record { on = w.on; losses = 2 ^ 64 - 1; span = 0; due = None };
    } };

    ghost row_size = { λ w. tt };

    ghost size_fits = { λ w. lit< tt };

    ghost due_rises = { λ w. tt };

    fn size(&self) -> usize {
        8
    }

    fn lost(&self) -> u64 {
        u64::MAX
    }

    fn read(&self, place: usize, out: &mut [u8]) {
        out.copy_from_slice(&self.row[place..place + out.len()]);
    }

    fn write(&mut self, place: usize, bytes: &[u8]) -> Result<(), Lost> {
        if self.loses {
            self.on = false;
            return Err(Lost);
        }
        self.row[place..place + bytes.len()].copy_from_slice(bytes);
        Ok(())
    }

    fn cut(&mut self) {
        self.on = false;
    }

    fn power(&mut self) {
        self.on = true;
    }
}

#[test]
fn losses_stand_still_at_the_last_number(rt: HostRuntime) -> Result<(), Fail> {
    for loses_itself in [false, true] {
        let worn = Worn {
            row: [0; 8],
            on: true,
            loses: loses_itself,
        };
        let mut nvm = Fused::new(worn, one_loss(rt.alloc(), after(1))?);
        assert_eq!(rt; nvm.lost(), u64::MAX);
        assert!(rt; loses(&mut nvm, 0, &[7; 8]));
        assert_eq!(rt; nvm.lost(), u64::MAX);
        assert_eq!(rt; loses(&mut nvm, 0, &[7; 8]), loses_itself);
    }
    Ok(())
}

fn moves<T: Send>(value: T) -> T
    ensures { result ≡ value }
{
    value
}

fn moves_where_its_parameter_does<N: Nvm + Send>(nvm: Fused<N>) -> Fused<N> {
    moves(nvm)
}

#[test]
fn devices_and_plans_move_between_threads(rt: HostRuntime) -> Result<(), Fail> {
    let how = How::Torn(moves(Pattern::new(&[1])));
    let loss = moves(Loss { write: 1, how });
    let nvm = Fused::new(
        moves(MemNvm::new(rt.alloc(), 8)?),
        one_loss(rt.alloc(), loss)?,
    );
    assert_eq!(rt; moves_where_its_parameter_does(nvm).lost(), 0);
    Ok(())
}

fn shares<T: Sync>(value: &T) -> &T {
    value
}

#[test]
fn losses_are_shared_between_threads(rt: HostRuntime) {
    let pattern = Pattern::new(&[1]);
    let how = How::Torn(Pattern::new(shares(&pattern).as_slice()));
    let loss = Loss { write: 1, how };
    assert!(rt; matches!(shares(&shares(&loss).how), How::Torn(_)));
}
