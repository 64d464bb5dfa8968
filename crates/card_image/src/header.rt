// The first 256 bytes of a device.
ghost use Rattle.std.specs.Prelude.{◌≡◌, ◌≤◌, ◌<◌, length, true, IfSome, OnOk, OnErr};
ghost use Rattle.power_loss.specs.Told.{LostWhereDue};
ghost use Rattle.nvm_slots.specs.Slots.{Kept, Cut};
ghost use Rattle.card_image.specs.Header.{is_first, references_twin, header_of};
ghost use Rattle.card_image.specs.Images.{HasReferences, MayHaveReferences, FitsLayout};

use nvm_device::{Lost, Nvm};
use nvm_slots::Twin;

fn references(first: bool) -> Twin
    ensures { result ≡ references_twin first }
{
    if first {
        Twin {
            selector: 8,
            slot: [9, 29],
            size: 20,
        }
    } else {
        Twin {
            selector: 115,
            slot: [116, 146],
            size: 30,
        }
    }
}

/// Whether the layout is the first one.
#[tactic(auto, unfolding(crate::specs::Header::header_of))]
pub(crate) fn has_first_layout<N: Nvm>(nvm: &N) -> bool
    requires on { (N.state nvm.now).power.on ≡ true }
    requires size { 1114112 ≤ (N.state nvm.now).size }
    ensures { IfSome (N.state nvm.now).bytes (λ row. result ≡ is_first (header_of row).front) }
{
    let mut out = [0; 8];
    nvm.read(0, &mut out);
    out[4] % 2 == 1
}

#[tactic(auto, unfolding(crate::specs::Header::header_of))]
/// The live references, without a Global PIN where the layout has none.
pub(crate) fn read_references<N: Nvm>(nvm: &N) -> [u8; 30]
    requires on { (N.state nvm.now).power.on ≡ true }
    requires size { 1114112 ≤ (N.state nvm.now).size }
    ensures size { length result ≡ 30 }
    ensures references { IfSome (N.state nvm.now).bytes (λ row. result ≡ (header_of row).references) }
{
    let mut out = [0; 30];
    if has_first_layout(nvm) {
        references(true).read(nvm, &mut out[..20]);
    } else {
        references(false).read(nvm, &mut out);
    }
    out
}

/// Puts other references in place, in two writes.
pub(crate) fn replace_references<N: Nvm>(nvm: &mut N, bytes: &[u8; 30]) -> Result<(), Lost>
    requires on { (N.state nvm.old).power.on ≡ true }
    requires size { 1114112 ≤ (N.state nvm.old).size }
    requires layout { IfSome (N.state nvm.old).bytes (λ row. FitsLayout bytes.now row) }
    ensures ok { OnOk result (Kept 2 (HasReferences bytes.now) (N.state nvm.old) (N.state nvm.new)) }
    ensures lost { OnErr result (Cut 2 (MayHaveReferences bytes.now) (N.state nvm.old) (N.state nvm.new)) }
    ensures due { LostWhereDue 2 (N.state nvm.old).power.due result }
{
    let twin = references(has_first_layout(nvm));
    match twin.replace(nvm, &bytes[..twin.size]) {
        Ok(()) => Ok(()),
        Err(Lost) => Err(Lost),
    }
}
