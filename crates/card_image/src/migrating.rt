// From layout 1 to layout 2.
ghost use Rattle.std.specs.Prelude.{◌≡◌, ◌≤◌, true, IfSome, OnOk, OnErr};
ghost use Rattle.power_loss.specs.Told.{LostWhereDue};
ghost use Rattle.nvm_slots.specs.Slots.{Kept, Cut};
ghost use Rattle.card_image.specs.Header.{is_first, header_of};
ghost use Rattle.card_image.specs.Images.{MayHaveReferences, Migrated};

use nvm_device::{Lost, Nvm};

/// Writes the references in the second layout, and then the version byte that names it.
pub(crate) fn migrate_references<N: Nvm>(nvm: &mut N, bytes: &[u8; 30]) -> Result<(), Lost>
    requires on { (N.state nvm.old).power.on ≡ true }
    requires size { 1114112 ≤ (N.state nvm.old).size }
    requires first { IfSome (N.state nvm.old).bytes (λ row. is_first (header_of row).front ≡ true) }
    ensures ok { OnOk result (Kept 3 (Migrated bytes.now) (N.state nvm.old) (N.state nvm.new)) }
    ensures lost { OnErr result (Cut 3 (MayHaveReferences bytes.now) (N.state nvm.old) (N.state nvm.new)) }
    ensures due { LostWhereDue 3 (N.state nvm.old).power.due result }
{
    match nvm.write(116, bytes) {
        Err(Lost) => Err(Lost),
        Ok(()) => match nvm.write(115, &[0]) {
            Err(Lost) => Err(Lost),
            Ok(()) => match nvm.write(4, &[2]) {
                Err(Lost) => Err(Lost),
                Ok(()) => Ok(()),
            },
        },
    }
}
