// Bytes that are laid on a device, each piece behind those before it.
ghost use Rattle.std.specs.Prelude.{◌≡◌, ◌+◌, ◌<◌, ◌≤◌, length, true, OnOk, OnErr};
ghost use Rattle.power_loss.specs.Told.{LostWhereDue};
ghost use Rattle.nvm_device.specs.Device.{written, Torn};
ghost use Rattle.nvm_slots.specs.Laying.{LaysMore, LaysNoMore};

use nvm_device::{Lost, Nvm};

/// Writes at least one byte behind all that was laid before.
pub fn lay<N: Nvm>(nvm: &mut N, place: usize, bytes: &[u8]) -> Result<(), Lost>
    requires on { (N.state nvm.old).power.on ≡ true }
    requires range { place + length bytes.now ≤ (N.state nvm.old).size }
    requires some { 0 < length bytes.now }
    ensures ok { OnOk result (N.state nvm.new ≡ written 1 place bytes.now (N.state nvm.old)) }
    ensures lost { OnErr result (Torn place (length bytes.now) (N.state nvm.old) (N.state nvm.new)) }
    ensures laid { OnOk result (LaysMore place bytes.now (N.state nvm.old) (N.state nvm.new)) }
    ensures on { OnOk result ((N.state nvm.new).power.on ≡ true) }
    ensures size { OnOk result ((N.state nvm.new).size ≡ (N.state nvm.old).size) }
    ensures fell { OnErr result (LaysNoMore place (length bytes.now) (N.state nvm.old) (N.state nvm.new)) }
    ensures due { LostWhereDue 1 (N.state nvm.old).power.due result }
{
    nvm.write(place, bytes)
}
