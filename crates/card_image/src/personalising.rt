// Personalising: everything else first, the mark last.
ghost use Rattle.std.specs.Prelude.{◌≡◌, ◌+◌, ◌≤◌, ◌<◌, ℕ, List, [], ◌∷◌, length, true, false, None, OnOk, OnErr};
ghost use Rattle.nvm_device.specs.Device.{DeviceState};
ghost use Rattle.nvm_slots.specs.Laying.{Piece, Laying, Fell, FrontKept};
ghost use Rattle.piv_model.specs.Starts.{memory_of_start, SpellsMemory};
ghost use Rattle.card_image.specs.Laying.{header_area, front_pieces, key_pieces, header_pieces, header_end, HasLengths, SpellsReferences, Done, NoOther, Personal};

use crate::objects::Objects;
use crate::references::write_reference;
use nvm_device::{Lost, Nvm};
use nvm_slots::lay;
use piv_model::Start;

// The references of a start, with full counters.
fn start_references(start: &Start) -> [u8; 30]
    ensures { SpellsReferences start.now result }
{
    let mut bytes = [0; 30];
    write_reference(&mut bytes, 0, start.limit_pin, &start.pin);
    write_reference(&mut bytes, 10, start.limit_puk, &start.puk);
    write_reference(&mut bytes, 20, start.global.limit, &start.global.pin);
    bytes
}

// Lays the version byte and the budget.
fn lay_front<N: Nvm>(nvm: &mut N, version: u8, start: &Start) -> Result<(), Lost>
    requires on { (N.state nvm.old).power.on ≡ true }
    requires size { 1114112 ≤ (N.state nvm.old).size }
    ensures laid { OnOk result ((s : DeviceState) → Laying header_area [] 4 s (N.state nvm.old)
        → Laying header_area (front_pieces version start.now) 8 s (N.state nvm.new)) }
    ensures on { OnOk result ((N.state nvm.new).power.on ≡ true) }
    ensures size { OnOk result ((N.state nvm.new).size ≡ (N.state nvm.old).size) }
    ensures fell { OnErr result ((s : DeviceState) → Laying header_area [] 4 s (N.state nvm.old)
        → Fell (FrontKept header_area) s (N.state nvm.new)) }
{
    lay(nvm, 4, &[version])?;
    lay(nvm, 6, &start.budget.to_be_bytes())?;
    Ok(())
}

// Lays an algorithm and its key.
fn lay_key<N: Nvm>(nvm: &mut N, place: usize, algorithm: u8, key: &[u8; 32]) -> Result<(), Lost>
    requires on { (N.state nvm.old).power.on ≡ true }
    requires size { 1114112 ≤ (N.state nvm.old).size }
    requires behind { 4 ≤ place }
    requires within { place ≤ 200 }
    ensures long { length key.now ≡ 32 }
    ensures laid { OnOk result ((pieces : List Piece) (end : ℕ) (s : DeviceState) → end ≤ place
        → Laying header_area pieces end s (N.state nvm.old)
        → let more = (place + 1, key.now) ∷ (place, algorithm ∷ []) ∷ pieces in
        Laying header_area more (place + 33) s (N.state nvm.new)) }
    ensures on { OnOk result ((N.state nvm.new).power.on ≡ true) }
    ensures size { OnOk result ((N.state nvm.new).size ≡ (N.state nvm.old).size) }
    ensures fell { OnErr result ((pieces : List Piece) (end : ℕ) (s : DeviceState) → end ≤ place
        → Laying header_area pieces end s (N.state nvm.old) → Fell (FrontKept header_area) s (N.state nvm.new)) }
{
    lay(nvm, place, &[algorithm])?;
    lay(nvm, place + 1, key)?;
    Ok(())
}

// Lays both keys.
fn lay_keys<N: Nvm>(nvm: &mut N, start: &Start) -> Result<(), Lost>
    requires on { (N.state nvm.old).power.on ≡ true }
    requires size { 1114112 ≤ (N.state nvm.old).size }
    ensures lengths { OnOk result (HasLengths start.now) }
    ensures laid { OnOk result ((pieces : List Piece) (end : ℕ) (s : DeviceState) → end ≤ 49
        → Laying header_area pieces end s (N.state nvm.old)
        → Laying header_area (key_pieces start.now pieces) 115 s (N.state nvm.new)) }
    ensures on { OnOk result ((N.state nvm.new).power.on ≡ true) }
    ensures size { OnOk result ((N.state nvm.new).size ≡ (N.state nvm.old).size) }
    ensures fell { OnErr result ((pieces : List Piece) (end : ℕ) (s : DeviceState) → end ≤ 49
        → Laying header_area pieces end s (N.state nvm.old) → Fell (FrontKept header_area) s (N.state nvm.new)) }
{
    lay_key(nvm, 49, start.admin.algorithm, &start.admin.bytes)?;
    lay_key(nvm, 82, start.card_auth.algorithm, &start.card_auth.bytes)?;
    Ok(())
}

// Lays the header of layout 1, but the mark.
fn lay_first_header<N: Nvm>(nvm: &mut N, start: &Start, references: &[u8; 30]) -> Result<(), Lost>
    requires on { (N.state nvm.old).power.on ≡ true }
    requires size { 1114112 ≤ (N.state nvm.old).size }
    ensures lengths { OnOk result (HasLengths start.now) }
    ensures laid { OnOk result ((s : DeviceState) → Laying header_area [] 4 s (N.state nvm.old)
        → Laying header_area (header_pieces true start.now references.now) 115 s (N.state nvm.new)) }
    ensures on { OnOk result ((N.state nvm.new).power.on ≡ true) }
    ensures size { OnOk result ((N.state nvm.new).size ≡ (N.state nvm.old).size) }
    ensures fell { OnErr result ((s : DeviceState) → Laying header_area [] 4 s (N.state nvm.old)
        → Fell (FrontKept header_area) s (N.state nvm.new)) }
{
    lay_front(nvm, 1, start)?;
    lay(nvm, 8, &[0])?;
    lay(nvm, 9, &references[..20])?;
    lay_keys(nvm, start)?;
    Ok(())
}

// Lays the header of layout 2, but the mark.
fn lay_second_header<N: Nvm>(nvm: &mut N, start: &Start, references: &[u8; 30]) -> Result<(), Lost>
    requires on { (N.state nvm.old).power.on ≡ true }
    requires size { 1114112 ≤ (N.state nvm.old).size }
    ensures lengths { OnOk result (HasLengths start.now) }
    ensures laid { OnOk result ((s : DeviceState) → Laying header_area [] 4 s (N.state nvm.old)
        → Laying header_area (header_pieces false start.now references.now) 146 s (N.state nvm.new)) }
    ensures on { OnOk result ((N.state nvm.new).power.on ≡ true) }
    ensures size { OnOk result ((N.state nvm.new).size ≡ (N.state nvm.old).size) }
    ensures fell { OnErr result ((s : DeviceState) → Laying header_area [] 4 s (N.state nvm.old)
        → Fell (FrontKept header_area) s (N.state nvm.new)) }
{
    lay_front(nvm, 2, start)?;
    lay_keys(nvm, start)?;
    lay(nvm, 115, &[0])?;
    lay(nvm, 116, references)?;
    Ok(())
}

// Lays all that stands before the objects, but the mark, in layout 1 or 2.
fn lay_header<N: Nvm>(
    nvm: &mut N,
    first: bool,
    start: &Start,
    references: &[u8; 30],
) -> Result<(), Lost>
    requires on { (N.state nvm.old).power.on ≡ true }
    requires size { 1114112 ≤ (N.state nvm.old).size }
    ensures lengths { OnOk result (HasLengths start.now) }
    ensures laid { OnOk result ((s : DeviceState) → Laying header_area [] 4 s (N.state nvm.old)
        → let pieces = header_pieces first start.now references.now in
        Laying header_area pieces (header_end first) s (N.state nvm.new)) }
    ensures on { OnOk result ((N.state nvm.new).power.on ≡ true) }
    ensures size { OnOk result ((N.state nvm.new).size ≡ (N.state nvm.old).size) }
    ensures fell { OnErr result ((s : DeviceState) → Laying header_area [] 4 s (N.state nvm.old)
        → Fell (FrontKept header_area) s (N.state nvm.new)) }
{
    if first {
        lay_first_header(nvm, start, references)?;
    } else {
        lay_second_header(nvm, start, references)?;
    }
    Ok(())
}

// Lays everything, and the mark last.
pub(crate) fn lay_start<N: Nvm, O: Objects>(
    nvm: &mut N,
    first: bool,
    start: &Start,
) -> Result<(), Lost>
    requires on { (N.state nvm.old).power.on ≡ true }
    requires size { 1114112 ≤ (N.state nvm.old).size }
    requires spells { SpellsMemory start.now }
    requires none { first ≡ true → (memory_of_start start.now).global ≡ None }
    ensures personal { OnOk result (Done (Personal O.form first start.now) (N.state nvm.old) (N.state nvm.new)) }
    ensures fell { OnErr result (Fell (NoOther O.form start.now) (N.state nvm.old) (N.state nvm.new)) }
{
    let references = start_references(start);
    match lay_header(nvm, first, start, &references) {
        Err(Lost) => Err(Lost),
        Ok(()) => match O::lay_objects(nvm, &start.objects) {
            Err(Lost) => Err(Lost),
            Ok(()) => match nvm.write(0, &O::mark()) {
                Err(Lost) => Err(Lost),
                Ok(()) => Ok(()),
            },
        },
    }
}
