// The connection description.
ghost use Rattle.std.specs.Prelude.{◌≡◌, ◌↔◌, ℕ, List, IsTrue, IfOk, OnErr};
ghost use Rattle.piv_objects.specs.Connections.{IsName, IsConnectionDescription};
ghost use Rattle.piv_objects.specs.Forms.{IsPartOf};

use crate::elements::only;
use crate::malformed::Malformed;

fn is_name(name: &[u8]) -> bool
    ensures { IsTrue result ↔ IsName name.now }
{
    1 <= name.len()
        && name.len() <= 32
        && name.iter().all(|b| {
            matches!(*b, b'0'..=b'9' | b'A'..=b'Z' | b'a'..=b'z' | b'-' | b'_')
        })
}

// The text of a name.
fn name_of(bytes: &[u8]) -> Result<&str, Malformed>
    ensures ok { IfOk result (λ name. (name.now ≡ bytes.now) × IsName bytes.now) }
    ensures err { OnErr result (¬ IsName bytes.now) }
{
    if !is_name(bytes) {
        return Err(Malformed);
    }
    match str::from_utf8(bytes) {
        Ok(name) => Ok(name),
        Err(_) => Err(Malformed),
    }
}

/// The name of the reader that a connection description asks for: one element 7F21 that holds one
/// element 81, of 1 to 32 ASCII letters, digits, - or _ (SP 800-73-4 part 3, pivConnect).
pub fn connection_description(bytes: &[u8]) -> Result<&str, Malformed>
    ensures ok { IfOk result (λ name. IsConnectionDescription bytes.now name.now) }
    ensures err { OnErr result ((name : List ℕ) → ¬ IsConnectionDescription bytes.now name) }
    ensures lent { IfOk result (λ name. IsPartOf bytes.now name.now) }
{
    let inside = only(bytes, 0x7F21)?;
    let name = only(inside, 0x81)?;
    name_of(name)
}
