// The authenticators of a login.
ghost use Rattle.std.specs.Prelude.{◌≡◌, ◌<◌, List, [], length, map, slice_get, Some};
ghost use Rattle.piv_objects.specs.Authenticators.{Credential, credential_of};

use arrayvec::ArrayVec;
use std::marker::Model;

// How many authenticators a login has at most.
const MOST: usize = 8;

/// A PIN, lent from the input, and the key reference that it is for.
#[derive(Clone, Copy, Debug)]
pub struct Authenticator<'a> {
    pub pin: &'a [u8],
    pub reference: u8,
}

impl Default for Authenticator<'_> {
    ghost is_default = { λ a. (a.pin.now ≡ []) × (a.reference ≡ 0) };

    fn default() -> Self {
        Authenticator {
            pin: &[],
            reference: 0,
        }
    }
}

/// One to eight authenticators, in their order.
#[derive(Drop)]
pub struct Authenticators<'a> {
    pub(crate) list: ArrayVec<Authenticator<'a>, MOST>,
}

impl<'a> Model for Authenticators<'a> {
    ghost Value = { List Credential };

    ghost view = { λ a. map credential_of a.list.items };
}

impl<'a> Authenticators<'a> {
    /// How many there are.
    pub fn len(&self) -> usize
        ensures { result ≡ length self.now }
    {
        self.list.len()
    }

    /// The authenticator at a place, from 0.
    pub fn get(&self, k: usize) -> Authenticator<'a>
        requires { k < length self.now }
        ensures { slice_get self.now k ≡ Some (credential_of result) }
    {
        self.list[k]
    }
}
