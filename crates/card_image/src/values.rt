// Values that are laid on a device.
ghost use Rattle.std.specs.Prelude.{◌≡◌, ◌+◌, ◌≤◌, length, true, OnOk, OnErr};
ghost use Rattle.nvm_slots.specs.Laying.{LaysMore, LaysNoMore};

use nvm_device::{Lost, Nvm};
use nvm_slots::lay;

/// Lays a value, which may be empty, behind all that was laid before.
pub fn lay_value<N: Nvm>(nvm: &mut N, place: usize, value: &[u8]) -> Result<(), Lost>
    requires on { (N.state nvm.old).power.on ≡ true }
    requires range { place + length value.now ≤ (N.state nvm.old).size }
    ensures laid { OnOk result (LaysMore place value.now (N.state nvm.old) (N.state nvm.new)) }
    ensures on { OnOk result ((N.state nvm.new).power.on ≡ true) }
    ensures size { OnOk result ((N.state nvm.new).size ≡ (N.state nvm.old).size) }
    ensures fell { OnErr result (LaysNoMore place (length value.now) (N.state nvm.old) (N.state nvm.new)) }
{
    if value.is_empty() {
        return Ok(());
    }
    lay(nvm, place, value)?;
    Ok(())
}
