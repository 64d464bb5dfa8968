// The objects of a start, each in the first slot of its record.
ghost use Rattle.std.specs.Prelude.{◌≡◌, ◌+◌, ◌*◌, ◌≤◌, ◌<◌, ℕ, List, ◌∷◌, length, true, OnOk, OnErr};
ghost use Rattle.nvm_device.specs.Device.{DeviceState};
ghost use Rattle.nvm_slots.specs.Laying.{Piece, Laying, Fell, FrontKept};
ghost use Rattle.piv_model.specs.Starts.{value_at};
ghost use Rattle.card_image.specs.Laying.{objects_area, Done, LaidObjects};
ghost use Rattle.twin_store.specs.Twins.{record_front, twin_form};

use crate::layout::RECORD;
use card_image::lay_value;
use card_image::layout::HEADER;
use nvm_device::{Lost, Nvm};
use nvm_slots::lay;
use piv_model::StartObjects;
use piv_model::limits::OBJECTS;

// Lays an object's record, its first slot live.
fn lay_record<N: Nvm>(nvm: &mut N, k: usize, value: &[u8]) -> Result<(), Lost>
    requires on { (N.state nvm.old).power.on ≡ true }
    requires size { 1114112 ≤ (N.state nvm.old).size }
    requires place { k < 33 }
    requires short { length value.now ≤ 16384 }
    ensures laid { OnOk result ((pieces : List Piece) (s : DeviceState)
        → Laying objects_area pieces (256 + 32773 * k) s (N.state nvm.old)
        → let more = (259 + 32773 * k, value.now) ∷ (256 + 32773 * k, record_front value.now) ∷ pieces in
        Laying objects_area more (256 + 32773 * (k + 1)) s (N.state nvm.new)) }
    ensures on { OnOk result ((N.state nvm.new).power.on ≡ true) }
    ensures size { OnOk result ((N.state nvm.new).size ≡ (N.state nvm.old).size) }
    ensures fell { OnErr result ((pieces : List Piece) (s : DeviceState)
        → Laying objects_area pieces (256 + 32773 * k) s (N.state nvm.old)
        → Fell (FrontKept objects_area) s (N.state nvm.new)) }
{
    let place = HEADER + RECORD * k;
    let n = value.len();
    lay(nvm, place, &[0, (n / 256) as u8, (n % 256) as u8])?;
    lay_value(nvm, place + 3, value)?;
    Ok(())
}

/// Lays the records of all objects.
pub(crate) fn lay_records<N: Nvm>(nvm: &mut N, objects: &StartObjects) -> Result<(), Lost>
    requires on { (N.state nvm.old).power.on ≡ true }
    requires size { 1114112 ≤ (N.state nvm.old).size }
    requires short { (k : ℕ) → k < 33 → length (value_at objects.now k) ≤ 16384 }
    ensures laid { OnOk result (Done (LaidObjects twin_form objects.now) (N.state nvm.old) (N.state nvm.new)) }
    ensures fell { OnErr result (Fell (FrontKept objects_area) (N.state nvm.old) (N.state nvm.new)) }
{
    for k in 0..OBJECTS {
        lay_record(nvm, k, objects.find(k))?;
    }
    Ok(())
}
