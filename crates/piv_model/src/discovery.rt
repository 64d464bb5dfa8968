// The Discovery Object.
ghost use Rattle.std.specs.Prelude.{◌≡◌, ◌++◌};
ghost use Rattle.piv_model.specs.Forms.{discovery_head};

use crate::application_names::FULL;

/// The value of a Discovery Object with this PIN usage policy: the full name of the PIV application under 4F, and
/// the policy under 5F2F (SP 800-73-4 part 1, Discovery Object).
pub fn discovery_value(policy: [u8; 2]) -> [u8; 18]
    ensures { result ≡ discovery_head ++ policy }
{
    let mut value = [0; 18];
    value[..2].copy_from_slice(&[0x4F, 0x0B]);
    value[2..13].copy_from_slice(&FULL);
    value[13..16].copy_from_slice(&[0x5F, 0x2F, 0x02]);
    value[16..].copy_from_slice(&policy);
    value
}
