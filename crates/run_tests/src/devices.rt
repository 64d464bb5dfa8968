// Blank devices in memory.
ghost use Rattle.std.specs.Prelude.{◌≡◌, ◌≤◌, ◌+◌, length, IfOk, OnOk};
ghost use Rattle.std.specs.List.{All};
ghost use Rattle.power_loss.specs.Due.{RisesFrom};
ghost use Rattle.power_loss.specs.Plans.{write_numbers};
ghost use Rattle.block_store.specs.Devices.{IsReady};

use nvm_device::{Fused, Loss, MemNvm, Nvm};
use std::alloc::Global;
use std::test::Fail;

// The bytes of a device.
pub(crate) const SIZE: usize = 1_114_112;

// Adds a device that is ready to those that are.
fn add<N: Nvm + Drop>(devices: &mut Vec<N>, device: N) -> Result<(), Fail>
    requires ready { IsReady (N.state device) }
    requires so_far { All (λ d. IsReady (N.state d)) devices.old.items }
    ensures all { OnOk result (All (λ d. IsReady (N.state d)) devices.new.items) }
    ensures count { OnOk result (length devices.new.items ≡ length devices.old.items + 1) }
{
    devices.push(device)?;
    Ok(())
}

// Adds a blank device that loses these writes.
fn add_blank(alloc: Global, devices: &mut Vec<Fused<MemNvm>>, plan: Vec<Loss>) -> Result<(), Fail>
    requires rises { RisesFrom 0 (write_numbers plan.items) }
    requires so_far { All (λ d. IsReady (⟦<Fused<MemNvm> as Nvm>⟧.state d)) devices.old.items }
    ensures all { OnOk result (All (λ d. IsReady (⟦<Fused<MemNvm> as Nvm>⟧.state d)) devices.new.items) }
    ensures count { OnOk result (length devices.new.items ≡ length devices.old.items + 1) }
{
    add(devices, Fused::new(MemNvm::new(alloc, SIZE)?, plan))
}

// Eight blank devices, of which device 0 has this plan of losses and the others have none.
pub(crate) fn eight(alloc: Global, plan: Vec<Loss>) -> Result<Vec<Fused<MemNvm>>, Fail>
    requires { RisesFrom 0 (write_numbers plan.items) }
    ensures eight { IfOk result (λ devices. 8 ≤ length devices.items) }
    ensures ready { IfOk result (λ devices. All (λ d. IsReady (⟦<Fused<MemNvm> as Nvm>⟧.state d)) devices.items) }
{
    let mut devices = Vec::new(alloc);
    add_blank(alloc, &mut devices, plan)?;
    add_blank(alloc, &mut devices, Vec::new(alloc))?;
    add_blank(alloc, &mut devices, Vec::new(alloc))?;
    add_blank(alloc, &mut devices, Vec::new(alloc))?;
    add_blank(alloc, &mut devices, Vec::new(alloc))?;
    add_blank(alloc, &mut devices, Vec::new(alloc))?;
    add_blank(alloc, &mut devices, Vec::new(alloc))?;
    add_blank(alloc, &mut devices, Vec::new(alloc))?;
    Ok(devices)
}
