// What a command asks. A value to be put is lent from the command.

use piv_model::{Application, ObjectId, RefId};

/// What a comparison is for.
#[derive(Clone, Copy, Debug)]
pub enum Purpose {
    /// VERIFY.
    Verify,
    /// CHANGE REFERENCE DATA with the new value.
    Change([u8; 8]),
    /// RESET RETRY COUNTER with the new PIN.
    Unblock([u8; 8]),
}

/// What a command asks (SP 800-73-4 part 2).
#[derive(Clone, Copy, Debug)]
pub enum Asked<'a> {
    /// Nothing that can be granted: the status word.
    Refused(u16),
    Select(Application),
    Get(ObjectId),
    Put(ObjectId, &'a [u8]),
    Logout(RefId),
    Query(RefId),
    Compare(RefId, [u8; 8], Purpose),
    Internal([u8; 16]),
    AskChallenge,
    External([u8; 16]),
    AskWitness,
    /// The Witness, and the challenge to be enciphered.
    Mutual([u8; 16], [u8; 16]),
}
