// Reading the authenticators of a login.
ghost use Rattle.std.specs.Prelude.{◌↔◌, ℕ, List, IsTrue, IfOk, OnErr};
ghost use Rattle.piv_objects.specs.Authenticators.{Credential, credential_of, AreParts, IsPin, IsAuthenticator, IsAuthenticatorList, BeginsWithOne, ArePinsIn};

use crate::elements::{first, pair};
use crate::logins::{Authenticator, Authenticators};
use crate::malformed::Malformed;
use arrayvec::ArrayVec;

// The values of the elements 81 and 83, which stand in either order.
fn read_parts(bytes: &[u8]) -> Result<(&[u8], &[u8]), Malformed>
    ensures ok { IfOk result (λ x. AreParts bytes.now x.0.now x.1.now) }
    ensures err { OnErr result ((pin reference : List ℕ) → ¬ AreParts bytes.now pin reference) }
{
    match pair(bytes, 0x81, 0x83) {
        Ok(parts) => Ok(parts),
        Err(_) => {
            let (reference, pin) = pair(bytes, 0x83, 0x81)?;
            Ok((pin, reference))
        }
    }
}

// A PIN has 1 to 255 bytes.
fn is_pin(pin: &[u8]) -> bool
    ensures { IsTrue result ↔ IsPin pin.now }
{
    1 <= pin.len() && pin.len() <= 255
}

fn read_authenticator(bytes: &[u8]) -> Result<Authenticator<'_>, Malformed>
    ensures ok { IfOk result (λ a. IsAuthenticator bytes.now (credential_of a)) }
    ensures err { OnErr result ((c : Credential) → ¬ IsAuthenticator bytes.now c) }
{
    let (pin, reference) = read_parts(bytes)?;
    if !is_pin(pin) {
        return Err(Malformed);
    }
    match reference {
        [reference] => Ok(Authenticator {
            pin,
            reference: *reference,
        }),
        [] => Err(Malformed),
        [_, _, ..] => Err(Malformed),
    }
}

// The first authenticator, and what follows it.
fn read_first(bytes: &[u8]) -> Result<(Authenticator<'_>, &[u8]), Malformed>
    ensures ok { IfOk result (λ x. BeginsWithOne bytes.now (credential_of x.0) x.1.now) }
    ensures err { OnErr result ((c : Credential) (rest : List ℕ) →
        ¬ BeginsWithOne bytes.now c rest) }
{
    let (inside, rest) = first(bytes, 0x67)?;
    Ok((read_authenticator(inside)?, rest))
}

/// The authenticators of a login: 1 to 8 elements 67, each with one element 81, the PIN of 1 to 255
/// bytes, and one element 83, the key reference of one byte, in either order
/// (SP 800-73-4 part 3, pivLogIntoCardApplication).
pub fn authenticators(bytes: &[u8]) -> Result<Authenticators<'_>, Malformed>
    ensures ok { IfOk result (λ list. IsAuthenticatorList bytes.now list) }
    ensures err { OnErr result ((list : List Credential) → ¬ IsAuthenticatorList bytes.now list) }
    ensures lent { IfOk result (λ list. ArePinsIn bytes.now list) }
{
    let mut list = ArrayVec::new();
    let mut rest = bytes;
    while !rest.is_empty() {
        if list.is_full() {
            return Err(Malformed);
        }
        match read_first(rest) {
            Ok((authenticator, after)) => {
                list.push(authenticator);
                rest = after;
            }
            Err(_) => return Err(Malformed),
        }
    }
    match list.len() {
        0 => Err(Malformed),
        _ => Ok(Authenticators { list }),
    }
}
