ghost use Rattle.std.specs.Prelude.{◌≡◌, ◌≤◌, ◌<◌, ◌+◌, length, IfOk, OnOk};
ghost use Rattle.std.specs.List.{All};
ghost use Rattle.power_loss.specs.Due.{RisesFrom};
ghost use Rattle.power_loss.specs.Plans.{write_numbers};
ghost use Rattle.block_store.specs.Devices.{IsReady};
ghost use Rattle.piv_cli.specs.Devices.{AreReady};

use crate::lines::answer_lines;
use crate::program::plain;
use crate::status::Status;
use crate::words::Words;
use block_store::BlockStore;
use nvm_device::{Fused, How, Loss, MemNvm, Nvm, Pattern};
use piv_model::Found;
use piv_ports::{MemSink, MemSource};
use std::alloc::Global;
use std::process::Abort;
use std::test::Fail;

const SIZE: usize = 1_114_112;

// Adds a device that is ready to those that are.
fn add<N: Nvm + Drop>(devices: &mut Vec<N>, device: N) -> Result<(), Fail>
    requires ready { IsReady (N.state device) }
    requires so_far { All (λ d. IsReady (N.state d)) devices.old.items }
    ensures all { OnOk result (All (λ d. IsReady (N.state d)) devices.new.items) }
    ensures count { OnOk result (length devices.new.items ≡ length devices.old.items + 1) }
{
    devices.push(device)?;
    Ok(())
}

// Eight blank devices, of which device 0 has this plan of losses and the others have none.
pub fn fused_devices(alloc: Global, plan: Vec<Loss>) -> Result<Vec<Fused<MemNvm>>, Fail>
    requires { RisesFrom 0 (write_numbers plan.items) }
    ensures { IfOk result (λ devices. AreReady ⟦<Fused<MemNvm> as Nvm>⟧.state devices.items) }
{
    let mut devices = Vec::new(alloc);
    add(&mut devices, Fused::new(MemNvm::new(alloc, SIZE)?, plan))?;
    add(
        &mut devices,
        Fused::new(MemNvm::new(alloc, SIZE)?, Vec::new(alloc)),
    )?;
    add(
        &mut devices,
        Fused::new(MemNvm::new(alloc, SIZE)?, Vec::new(alloc)),
    )?;
    add(
        &mut devices,
        Fused::new(MemNvm::new(alloc, SIZE)?, Vec::new(alloc)),
    )?;
    add(
        &mut devices,
        Fused::new(MemNvm::new(alloc, SIZE)?, Vec::new(alloc)),
    )?;
    add(
        &mut devices,
        Fused::new(MemNvm::new(alloc, SIZE)?, Vec::new(alloc)),
    )?;
    add(
        &mut devices,
        Fused::new(MemNvm::new(alloc, SIZE)?, Vec::new(alloc)),
    )?;
    add(
        &mut devices,
        Fused::new(MemNvm::new(alloc, SIZE)?, Vec::new(alloc)),
    )?;
    Ok(devices)
}

// What `apdu` ended with and wrote over eight devices, and device 0.
#[derive(Drop)]
struct Run {
    status: Status,
    written: Vec<u8>,
    device: Fused<MemNvm>,
}

// Runs `apdu` where device 0 loses this write.
fn run_with_loss(alloc: Global, write: u64, how: How, input: &str) -> Result<Run, Fail>
    requires { 0 < write }
    ensures { IfOk result (λ run. 1114112 ≤ (⟦<Fused<MemNvm> as Nvm>⟧.state run.device).size) }
{
    let mut plan = Vec::new(alloc);
    plan.push(Loss { write, how })?;
    let mut devices = fused_devices(alloc, plan)?;
    let mut words = Words::new(alloc);
    words.push("apdu")?;
    let mut source = MemSource::new(input.as_bytes().to_vec(alloc)?, Vec::new(alloc));
    let mut sink = MemSink::new(alloc, 1000, 1000, Vec::new(alloc))?;
    let status = plain(alloc, &words, &mut source, &mut sink, &mut devices);
    Ok(Run {
        status,
        written: sink.taken().to_vec(alloc)?,
        device: devices.remove(0),
    })
}

// What the card on a device answers to an input, after the power is switched on.
fn ask_again(alloc: Global, device: Fused<MemNvm>, input: &str) -> Result<Vec<u8>, Fail>
    requires { 1114112 ≤ (⟦<Fused<MemNvm> as Nvm>⟧.state device).size }
{
    if input.len() > 1000 {
        return Err(Fail::from("too long"));
    }
    let mut device = device;
    device.power();
    match BlockStore::look(device) {
        Found::Card(store) => {
            let (_, answered) = answer_lines(alloc, store, [0; 32], input.as_bytes());
            match answered {
                Ok(output) => Ok(output),
                Err(_) => Err(Fail::from("no memory")),
            }
        }
        Found::Blank(_) | Found::BadImage(_) => Err(Fail::from("no card")),
    }
}

fn is_one_of(bytes: &[u8], texts: [&str; 3]) -> bool {
    let [first, second, third] = texts;
    bytes == first.as_bytes() || bytes == second.as_bytes() || bytes == third.as_bytes()
}

// How many losses come within these lines, one in each run, at the last write of personalising (of 14) and the six writes
// after it, each left in five ways: the lines are then answered `lost`, and the card that stands on the device answers
// `again` by the old or by the new memory.
fn losses(
    rt: &impl Abort,
    alloc: Global,
    input: &str,
    lost: &str,
    again: &str,
    old_or_new: [&str; 3],
) -> Result<u64, Fail> {
    let mut count: u64 = 0;
    for write in 14..21 {
        for how in [
            How::Before,
            How::Torn(Pattern::new(&[0])),
            How::Torn(Pattern::new(&[1])),
            How::Torn(Pattern::new(&[255])),
            How::After,
        ] {
            let run = run_with_loss(alloc, write, how, input)?;
            if run.status == Status::Done && run.written.contains(&b'-') {
                count = count.saturating_add(1);
                assert_eq!(rt; run.written.as_slice(), lost.as_bytes());
                let answered = ask_again(alloc, run.device, again)?;
                assert!(rt; is_one_of(&answered, old_or_new));
            }
        }
    }
    Ok(count)
}

#[test]
fn a_loss_before_the_card_stands_is_a_fault_of_the_device(rt: HostRuntime) -> Result<(), Fail> {
    let run = run_with_loss(
        rt.alloc(),
        1,
        How::Before,
        "00A404000BA000000308000010000100",
    )?;
    assert_eq!(rt; run.status, Status::DeviceFault);
    assert_eq!(rt; run.written.len(), 0);
    assert_eq!(rt; run.device.lost(), 1);
    Ok(())
}

// Four writes: the counter is lowered before the comparison, and filled after it.
#[test]
fn a_login_that_loses_power_has_spent_a_try_or_none(rt: HostRuntime) -> Result<(), Fail> {
    let count = losses(
        &rt,
        rt.alloc(),
        "00A404000BA000000308000010000100\n0020008008313233343536FFFF\n0G\n00200080\n",
        "61114F0600001000010079074F05A0000003089000\n-\n?\n-\n",
        "00A404000BA000000308000010000100\n00200080\n",
        [
            "61114F0600001000010079074F05A0000003089000\n63C3\n",
            "61114F0600001000010079074F05A0000003089000\n63C2\n",
            "61114F0600001000010079074F05A0000003089000\n63C3\n",
        ],
    )?;
    assert_eq!(rt; count, 20);
    Ok(())
}

#[test]
fn a_change_that_loses_power_leaves_the_old_or_the_new_pin(rt: HostRuntime) -> Result<(), Fail> {
    let count = losses(
        &rt,
        rt.alloc(),
        "00A404000BA000000308000010000100\n0024008010313233343536FFFF363534333231FFFF\n0G\n00200080\n",
        "61114F0600001000010079074F05A0000003089000\n-\n?\n-\n",
        "00A404000BA000000308000010000100\n0020008008363534333231FFFF\n",
        [
            "61114F0600001000010079074F05A0000003089000\n63C2\n",
            "61114F0600001000010079074F05A0000003089000\n63C1\n",
            "61114F0600001000010079074F05A0000003089000\n9000\n",
        ],
    )?;
    assert_eq!(rt; count, 20);
    Ok(())
}

#[test]
fn an_unblocking_that_loses_power_leaves_the_old_or_the_new_pin(
    rt: HostRuntime,
) -> Result<(), Fail> {
    let count = losses(
        &rt,
        rt.alloc(),
        "00A404000BA000000308000010000100\n002C0080103132333435363738363534333231FFFF\n0G\n00200080\n",
        "61114F0600001000010079074F05A0000003089000\n-\n?\n-\n",
        "00A404000BA000000308000010000100\n0020008008363534333231FFFF\n",
        [
            "61114F0600001000010079074F05A0000003089000\n63C2\n",
            "61114F0600001000010079074F05A0000003089000\n9000\n",
            "61114F0600001000010079074F05A0000003089000\n9000\n",
        ],
    )?;
    assert_eq!(rt; count, 20);
    Ok(())
}

// Three writes: one block, the directory, and its selector.
#[test]
fn a_put_that_loses_power_leaves_the_old_or_the_new_object(rt: HostRuntime) -> Result<(), Fail> {
    let count = losses(
        &rt,
        rt.alloc(),
        "00A404000BA000000308000010000100\n0087089B047C02810000\n0087089B147C12821042155C90AB20DCE01EB4F8787E51B59A\n00DB3FFF0B5C035FC10253043E01FE00\n0G\n00CB3FFF055C035FC10200\n",
        "61114F0600001000010079074F05A0000003089000\n7C12811076B8E0ADA0F13D90405D6AE55386BD289000\n9000\n-\n?\n-\n",
        "00A404000BA000000308000010000100\n00CB3FFF055C035FC10200\n",
        [
            "61114F0600001000010079074F05A0000003089000\n53043E00FE009000\n",
            "61114F0600001000010079074F05A0000003089000\n53043E01FE009000\n",
            "61114F0600001000010079074F05A0000003089000\n53043E01FE009000\n",
        ],
    )?;
    assert_eq!(rt; count, 15);
    Ok(())
}
