// The bytes of the reference record.
ghost use Rattle.std.specs.Prelude.{◌≡◌, ◌⊎◌, ◌+◌, ◌≤◌, ℕ, IsTrue, length, true};
ghost use Rattle.piv_model.specs.declared.kinds.RefId.TheVariants.{GlobalPin};
ghost use Rattle.std.specs.Str.{bytes_eq};
ghost use Rattle.nvm_device.specs.Bytes.{bytes_at, overwrite};
ghost use Rattle.piv_model.specs.Memory.{Memory, has, reference};
ghost use Rattle.piv_model.specs.Changes.{change_reference, one_less, full, renewed, unblocked};
ghost use Rattle.card_image.specs.Header.{reference_in, with_references, with_global, full_global};
ghost use Rattle.card_image.specs.Places.{place_of_tries};

use piv_model::RefId;

// The place of the tries in the reference record.
pub(crate) fn tries_place(r: RefId) -> usize
    ensures { result ≡ place_of_tries r }
{
    match r {
        RefId::Pin => 1,
        RefId::Puk => 11,
        RefId::GlobalPin => 21,
    }
}

// One try less.
pub(crate) fn spend_in(bytes: &mut [u8; 30], r: RefId)
    ensures { (m : Memory) → with_references bytes.old m ≡ m → IsTrue (has m r)
        → with_references bytes.new m ≡ change_reference r one_less m }
{
    let at = tries_place(r);
    bytes[at] = bytes[at].saturating_sub(1);
}

// A full counter.
pub(crate) fn fill_in(bytes: &mut [u8; 30], r: RefId)
    ensures { (m : Memory) → with_references bytes.old m ≡ m → IsTrue (has m r)
        → with_references bytes.new m ≡ change_reference r full m }
{
    let at = tries_place(r);
    bytes[at] = bytes[at - 1];
}

// Another secret from a place on.
fn write_secret(bytes: &mut [u8; 30], at: usize, secret: &[u8; 8])
    requires within { at ≤ 22 }
    ensures long { length secret.now ≡ 8 }
    ensures bytes { bytes.new ≡ overwrite bytes.old at secret.now }
{
    bytes[at..at + 8].copy_from_slice(secret);
}

// Another secret, and a full counter.
pub(crate) fn renew_in(bytes: &mut [u8; 30], r: RefId, secret: &[u8; 8])
    ensures { (m : Memory) → with_references bytes.old m ≡ m → IsTrue (has m r)
        → with_references bytes.new m ≡ change_reference r (renewed secret.now) m }
{
    fill_in(bytes, r);
    write_secret(bytes, tries_place(r) + 1, secret);
}

// A new PIN, and full counters of PIN and PUK.
pub(crate) fn unblock_in(bytes: &mut [u8; 30], pin: &[u8; 8])
    ensures { (m : Memory) → with_references bytes.old m ≡ m → with_references bytes.new m ≡ unblocked pin.now m }
{
    fill_in(bytes, RefId::Puk);
    renew_in(bytes, RefId::Pin, pin);
}

// Whether there is such a reference.
pub(crate) fn is_there(bytes: &[u8; 30], r: RefId) -> bool
    ensures there { (m : Memory) → with_references bytes.now m ≡ m → result ≡ has m r }
    ensures own { (r ≡ GlobalPin → ⊥) → result ≡ true }
{
    match r {
        RefId::Pin => true,
        RefId::Puk => true,
        RefId::GlobalPin => bytes[20] != 0,
    }
}

fn holds_secret(bytes: &[u8; 30], at: usize, candidate: &[u8; 8]) -> bool
    requires { at ≤ 22 }
    ensures { result ≡ bytes_eq candidate.now (bytes_at bytes.now at 8) }
{
    candidate.as_slice() == &bytes[at..at + 8]
}

// Whether the candidate is the secret of a reference.
pub(crate) fn has_secret(bytes: &[u8; 30], r: RefId, candidate: &[u8; 8]) -> bool
    ensures { (m : Memory) → with_references bytes.now m ≡ m → result ≡ bytes_eq candidate.now (reference m r).secret }
{
    if !is_there(bytes, r) {
        return false;
    }
    holds_secret(bytes, tries_place(r) + 1, candidate)
}

// Another reference from a place on, with a full counter.
pub(crate) fn write_reference(bytes: &mut [u8; 30], at: usize, limit: u8, secret: &[u8; 8])
    requires within { at ≤ 20 }
    ensures size { length bytes.new ≡ 30 }
    ensures here { reference_in bytes.new at ≡ record { limit = limit; tries = limit; secret = secret.now } }
    ensures others { (k : ℕ) → (k + 10 ≤ at) ⊎ ((at + 10 ≤ k) × (k + 10 ≤ 30))
        → reference_in bytes.new k ≡ reference_in bytes.old k }
{
    bytes[at] = limit;
    bytes[at + 1] = limit;
    write_secret(bytes, at + 2, secret);
}

// A Global PIN with a full counter.
pub(crate) fn add_global(bytes: &mut [u8; 30], limit: u8, pin: &[u8; 8])
    ensures { (m : Memory) → with_references bytes.old m ≡ m
        → with_references bytes.new m ≡ with_global (full_global limit pin.now) m }
{
    write_reference(bytes, 20, limit, pin);
}
