// The devices that the program makes.
ghost use Rattle.std.specs.Prelude.{IfOk};
ghost use Rattle.piv_cli.specs.Devices.{AreReady};

use nvm_device::{MemNvm, Nvm};
use std::alloc::{AllocError, Global};

const DEVICES: usize = 8;

const DEVICE_SIZE: usize = 1_114_112;

/// Eight devices in memory, with zero bytes alone.
pub fn blank_devices(alloc: Global) -> Result<Vec<MemNvm>, AllocError>
    ensures { IfOk result (λ devices. AreReady ⟦<MemNvm as Nvm>⟧.state devices.items) }
{
    let mut devices = Vec::new(alloc);
    'devices: for _ in 0..DEVICES {
        let Ok(device) = MemNvm::new(alloc, DEVICE_SIZE) else {
            return Err(AllocError);
        };
        devices.push(device)?;
    }
    Ok(devices)
}
