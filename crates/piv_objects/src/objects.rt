// GET DATA and the Discovery object.
ghost use Rattle.std.specs.Prelude.{◌≡◌, ◌↔◌, List, ℕ, Bool, true, drop, IsTrue, IfOk, OnOk, OnErr};
ghost use Rattle.piv_model.specs.Forms.{is_policy, is_discovery};
ghost use Rattle.piv_objects.specs.Forms.{IsPartOf, IsObjectTag, IsTagList, is_policy_read};

use crate::elements::only;
use crate::malformed::Malformed;
use piv_model::discovery_value;

// The tag of an object has 1 to 3 bytes.
fn is_object_tag(tag: &[u8]) -> bool
    ensures { IsTrue result ↔ IsObjectTag tag.now }
{
    1 <= tag.len() && tag.len() <= 3
}

/// The tag of the object that GET DATA asks for: one element 5C of 1 to 3 bytes
/// (SP 800-73-4 part 2, GET DATA).
pub fn tag_list(body: &[u8]) -> Result<&[u8], Malformed>
    ensures ok { IfOk result (λ tag. IsTagList body.now tag.now) }
    ensures err { OnErr result ((tag : List ℕ) → ¬ IsTagList body.now tag) }
    ensures lent { IfOk result (λ tag. IsPartOf body.now tag.now) }
{
    let tag = only(body, 0x5C)?;
    if is_object_tag(tag) {
        Ok(tag)
    } else {
        Err(Malformed)
    }
}

// A policy that some card may have.
fn is_policy(policy: [u8; 2]) -> bool
    ensures { result ≡ is_policy true policy }
{
    matches!(policy, [0x40, 0x00] | [0x60, 0x10] | [0x60, 0x20])
}

/// The PIN usage policy of a Discovery object: 40 00, 60 10 or 60 20
/// (SP 800-73-4 part 1, Discovery Object).
#[tactic(auto, unfolding(piv_model::specs::Forms::is_discovery))]
pub fn discovery(value: &[u8]) -> Result<[u8; 2], Malformed>
    ensures ok { OnOk result (is_discovery true value.now ≡ true) }
    ensures policy { IfOk result (λ policy. policy ≡ drop 16 value.now) }

    // It is the form for a card with a Global PIN, or for one without, exactly where its policy is one of such a card.
    ensures exact { (has_global : Bool) → is_discovery has_global value.now ≡ is_policy_read has_global result }
{
    let (_, policy) = value.split_at_checked(16).ok_or(Malformed)?;
    let policy: [u8; 2] = policy.try_into().or(Err(Malformed))?;
    if value != discovery_value(policy).as_slice() || !is_policy(policy) {
        return Err(Malformed);
    }
    Ok(policy)
}
