// Two values, one behind the other.
ghost use Rattle.std.specs.Prelude.{◌≡◌, Some, None, take, drop, if◌then◌else◌};
ghost use Rattle.piv_model.specs.Forms.{is_secret, is_pair, is_puk_and_pin};

use crate::secrets::{read_pin, read_puk};
use piv_model::RefId;

// A value of a reference.
fn read_secret(r: RefId, bytes: &[u8]) -> Option<[u8; 8]>
    ensures { result ≡ (if is_secret r bytes.now then Some bytes.now else None) }
{
    match r {
        RefId::Pin | RefId::GlobalPin => read_pin(bytes),
        RefId::Puk => read_puk(bytes),
    }
}

/// The old and the new value of a reference, 8 bytes each; both are PINs where the reference is one
/// (SP 800-73-4 part 2, CHANGE REFERENCE DATA). None exactly where the bytes aren't of that form.
pub fn read_pair(r: RefId, bytes: &[u8]) -> Option<([u8; 8], [u8; 8])>
    ensures { result ≡ (if is_pair r bytes.now then Some (take 8 bytes.now, drop 8 bytes.now) else None) }
{
    if bytes.len() != 16 {
        return None;
    }
    let (old, new) = bytes.split_at(8);
    Some((read_secret(r, old)?, read_secret(r, new)?))
}

/// A PUK of 8 bytes and a new PIN (SP 800-73-4 part 2, RESET RETRY COUNTER). None exactly where the bytes aren't of
/// that form.
pub fn read_unblock(bytes: &[u8]) -> Option<([u8; 8], [u8; 8])>
    ensures { result ≡ (if is_puk_and_pin bytes.now then Some (take 8 bytes.now, drop 8 bytes.now) else None) }
{
    if bytes.len() != 16 {
        return None;
    }
    let (puk, new) = bytes.split_at(8);
    Some((read_puk(puk)?, read_pin(new)?))
}
