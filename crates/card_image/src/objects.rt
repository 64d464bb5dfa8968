// How a store keeps its objects, behind the first 256 bytes of a device.
ghost use Rattle.std.specs.Prelude.{◌≡◌, ◌+◌, ◌*◌, ◌≤◌, ◌<◌, ℕ, length, true, IfSome, OnOk, OnErr};
ghost use Rattle.power_loss.specs.Told.{LostWhereDue};
ghost use Rattle.nvm_device.specs.Bytes.{bytes_at};
ghost use Rattle.nvm_slots.specs.Slots.{Kept, Cut};
ghost use Rattle.nvm_slots.specs.Laying.{Fell, FrontKept};
ghost use Rattle.piv_model.specs.Memory.{blocks, blocks_used};
ghost use Rattle.piv_model.specs.Starts.{value_at};
ghost use Rattle.card_image.specs.Forms.{Form, IsForm};
ghost use Rattle.card_image.specs.Images.{HasObject, MayHaveObject, KeepsObjects, IfKeeps, object_in, budget_of};
ghost use Rattle.card_image.specs.Laying.{objects_area, values, Done, LaidObjects};

use nvm_device::{Lost, Nvm};
use piv_model::StartObjects;

/// A form in which a device of at least 1,114,112 bytes keeps 33 objects behind its first 256 bytes.
/// An absent object is empty.
pub trait Objects {
    /// What the rows are that have this form.
    ghost form: { Form };

    /// The first four bytes.
    fn mark() -> [u8; 4]
        ensures { result ≡ form.mark };

    /// Whether a row keeps objects in this form, in so many blocks of 64 bytes.
    fn are_objects<N: Nvm>(nvm: &N, budget: usize) -> bool
        requires on { (N.state nvm.now).power.on ≡ true }
        requires size { 1114112 ≤ (N.state nvm.now).size }
        requires few { budget ≤ 2048 }
        ensures { IfSome (N.state nvm.now).bytes (λ row. result ≡ form.are_objects budget row) };

    /// The length of an object, 0 where it is absent.
    fn length<N: Nvm>(nvm: &N, place: usize) -> usize
        requires on { (N.state nvm.now).power.on ≡ true }
        requires size { 1114112 ≤ (N.state nvm.now).size }
        requires place { place < 33 }
        ensures told { IfKeeps form (N.state nvm.now) (λ row. result ≡ length (object_in form row place)) }
        ensures few { result ≤ 16384 };

    /// Reads an object into `out`, which has its length.
    fn fill<N: Nvm>(nvm: &N, place: usize, out: &mut [u8])
        requires on { (N.state nvm.now).power.on ≡ true }
        requires size { 1114112 ≤ (N.state nvm.now).size }
        requires place { place < 33 }
        ensures told { IfKeeps form (N.state nvm.now) (λ row. let object = object_in form row place in
            length out.old ≡ length object → out.new ≡ object) };

    /// Reads at most 64 bytes of an object, from byte `64 * number` on.
    fn part<N: Nvm>(nvm: &N, place: usize, number: usize, out: &mut [u8])
        requires on { (N.state nvm.now).power.on ≡ true }
        requires size { 1114112 ≤ (N.state nvm.now).size }
        requires place { place < 33 }
        requires number { number < 256 }
        requires few { length out.old ≤ 64 }
        ensures size { length out.new ≡ length out.old }
        ensures told { IfKeeps form (N.state nvm.now) (λ row. let object = object_in form row place in
            64 * number + length out.old ≤ length object
            → out.new ≡ bytes_at object (64 * number) (length out.old)) };

    /// Puts an object in place. There has to be room beside all objects present.
    fn put<N: Nvm>(nvm: &mut N, place: usize, value: &[u8]) -> Result<(), Lost>
        requires on { (N.state nvm.old).power.on ≡ true }
        requires size { 1114112 ≤ (N.state nvm.old).size }
        requires place { place < 33 }
        requires short { length value.now ≤ 16384 }
        requires keeps { IfSome (N.state nvm.old).bytes (λ row. KeepsObjects form row) }
        requires room { IfSome (N.state nvm.old).bytes (λ row.
            blocks (length value.now) + blocks_used (form.objects_of row) ≤ budget_of row) }
        ensures ok { let n = form.put_cost (length value.now) in
            OnOk result (Kept n (HasObject form place value.now) (N.state nvm.old) (N.state nvm.new)) }
        ensures lost { let n = form.put_cost (length value.now) in
            OnErr result (Cut n (MayHaveObject form place value.now) (N.state nvm.old) (N.state nvm.new)) }
        ensures due { LostWhereDue (form.put_cost (length value.now)) (N.state nvm.old).power.due result };

    /// Lays the objects of a start behind the first 256 bytes, which stand.
    fn lay_objects<N: Nvm>(nvm: &mut N, objects: &StartObjects) -> Result<(), Lost>
        requires on { (N.state nvm.old).power.on ≡ true }
        requires size { 1114112 ≤ (N.state nvm.old).size }
        requires short { (k : ℕ) → k < 33 → length (value_at objects.now k) ≤ 16384 }
        requires room { blocks_used (values objects.now) ≤ 2048 }
        ensures laid { OnOk result (Done (LaidObjects form objects.now) (N.state nvm.old) (N.state nvm.new)) }
        ensures fell { OnErr result (Fell (FrontKept objects_area) (N.state nvm.old) (N.state nvm.new)) };

    /// What holds of every row.
    ghost is_form: { IsForm form };
}
