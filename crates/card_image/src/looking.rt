// Whether the bytes of a device stand for a memory.
ghost use Rattle.std.specs.Prelude.{◌≡◌, ◌↔◌, ◌+◌, ◌<◌, ◌≤◌, ◌&&◌, nat_le, length, true, is_some, IsTrue, IfSome};
ghost use Rattle.nvm_device.specs.Bytes.{bytes_at};
ghost use Rattle.piv_model.specs.Forms.{is_pin, is_policy, is_discovery};
ghost use Rattle.piv_model.specs.Objects.{discovery_place};
ghost use Rattle.piv_model.specs.Sound.{is_algorithm, may_stand};
ghost use Rattle.card_image.specs.Header.{header_of};
ghost use Rattle.card_image.specs.Images.{IsImage, IfKeeps, object_in};
ghost use Rattle.card_image.specs.Looking.{are_references, are_keys, IsBlank};

use crate::header::read_references;
use crate::keys::read_keys;
use crate::layout::KEY;
use crate::objects::Objects;
use crate::room::{blocks_of_all, read_budget};
use nvm_device::Nvm;
use piv_model::limits::MOST_BLOCKS;
use piv_model::{ObjectId, discovery_value};
use piv_references::read_pin;

fn is_counter(limit: u8, tries: u8) -> bool
    ensures { result ≡ (nat_le 1 limit && nat_le limit 15 && nat_le tries limit) }
{
    1 <= limit && limit <= 15 && tries <= limit
}

fn is_pin(bytes: &[u8; 30], at: usize) -> bool
    requires { at ≤ 22 }
    ensures { result ≡ is_pin (bytes_at bytes.now at 8) }
{
    read_pin(&bytes[at..at + 8]).is_some()
}

fn is_algorithm(a: u8) -> bool
    ensures { result ≡ is_algorithm a }
{
    a == 0x08 || a == 0x0A || a == 0x0C
}

fn are_references(bytes: &[u8; 30]) -> bool
    ensures { result ≡ are_references bytes.now }
{
    let own = is_counter(bytes[0], bytes[1])
        && is_counter(bytes[10], bytes[11])
        && is_pin(bytes, 2);
    own && (bytes[20] == 0 || (is_counter(bytes[20], bytes[21]) && is_pin(bytes, 22)))
}

fn are_keys(bytes: &[u8; 66]) -> bool
    ensures { result ≡ are_keys bytes.now }
{
    is_algorithm(bytes[0]) && is_algorithm(bytes[KEY])
}

#[tactic(auto, unfolding(crate::specs::Header::header_of))]
fn has_mark<N: Nvm, O: Objects>(nvm: &N) -> bool
    requires on { (N.state nvm.now).power.on ≡ true }
    requires size { 1114112 ≤ (N.state nvm.now).size }
    ensures { IfSome (N.state nvm.now).bytes (λ row.
        IsTrue result ↔ (bytes_at (header_of row).front 0 4 ≡ O.form.mark)) }
{
    let mut out = [0; 4];
    nvm.read(0, &mut out);
    out == O::mark()
}

pub(crate) fn is_blank<N: Nvm>(nvm: &N) -> bool
    requires on { (N.state nvm.now).power.on ≡ true }
    requires size { 1114112 ≤ (N.state nvm.now).size }
    ensures { IfSome (N.state nvm.now).bytes (λ row. IsTrue result ↔ IsBlank row) }
{
    let mut out = [0; 4];
    nvm.read(0, &mut out);
    out == [0; 4]
}

fn is_policy(has_global: bool, policy: &[u8]) -> bool
    ensures { result ≡ is_policy has_global policy.now }
{
    policy == [0x40, 0x00].as_slice()
        || (has_global && (policy == [0x60, 0x10].as_slice() || policy == [0x60, 0x20].as_slice()))
}

#[tactic(auto, unfolding(piv_model::specs::Forms::is_discovery))]
fn is_discovery(has_global: bool, value: &[u8; 18]) -> bool
    ensures { result ≡ is_discovery has_global value.now }
{
    let form = discovery_value([0, 0]);
    value[..16] == form[..16] && is_policy(has_global, &value[16..])
}

// Whether the Discovery Object is absent or has its form.
fn has_discovery<N: Nvm, O: Objects>(nvm: &N, has_global: bool) -> bool
    requires on { (N.state nvm.now).power.on ≡ true }
    requires size { 1114112 ≤ (N.state nvm.now).size }
    ensures { IfKeeps O.form (N.state nvm.now) (λ row. result ≡ may_stand has_global discovery_place (object_in O.form row discovery_place)) }
{
    let place = ObjectId::discovery().place() as usize;
    let n = O::length(nvm, place);
    if n == 0 {
        return true;
    }
    if n != 18 {
        return false;
    }
    let mut value = [0; 18];
    O::fill(nvm, place, &mut value);
    is_discovery(has_global, &value)
}

// Whether the bytes stand for a memory.
pub(crate) fn is_image<N: Nvm, O: Objects>(nvm: &N) -> bool
    requires on { (N.state nvm.now).power.on ≡ true }
    requires size { 1114112 ≤ (N.state nvm.now).size }
    ensures { IfSome (N.state nvm.now).bytes (λ row. IsTrue result ↔ IsImage O.form row) }
{
    let marked = has_mark::<N, O>(nvm);
    if !marked {
        return false;
    }
    let budget = read_budget(nvm);
    if budget == 0 {
        return false;
    }
    if budget > MOST_BLOCKS {
        return false;
    }
    let references = read_references(nvm);
    let sound = are_references(&references);
    if !sound {
        return false;
    }
    let known = are_keys(&read_keys(nvm));
    if !known {
        return false;
    }
    let kept = O::are_objects(nvm, budget);
    if !kept {
        return false;
    }
    if blocks_of_all::<N, O>(nvm) > budget {
        return false;
    }
    has_discovery::<N, O>(nvm, references[20] != 0)
}
