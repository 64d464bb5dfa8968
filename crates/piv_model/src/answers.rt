// The answers of the client API's calls and of a script's other lines.
use crate::history::Refusal;
use crate::kinds::{Rule, Took};
use crate::reply_bytes::Body;

/// What a line of a script is answered: an answer of the client API (SP 800-73-4 part 3), or one of this
/// project's own.
#[derive(Drop)]
pub enum ApiAnswer {
    /// PIV_OK, with what the call gives.
    Ok { body: Body },
    /// What a transmitted APDU was replied: its data and its status word.
    Reply { body: Body, sw: u16 },
    /// PIV_AUTHENTICATION_FAILURE, with the card's status word.
    AuthenticationFailure { sw: u16 },
    /// A status word of the card for which the client API has no name.
    CardStatus { sw: u16 },
    /// PIV_SECURITY_CONDITIONS_NOT_SATISFIED, with the rule that doesn't hold.
    SecurityConditions { rule: Rule },
    /// PIV_CONNECTION_DESCRIPTION_MALFORMED.
    ConnectionDescriptionMalformed,
    /// PIV_CONNECTION_FAILURE.
    ConnectionFailure,
    /// PIV_CONNECTION_LOCKED.
    ConnectionLocked,
    /// No more turns have room.
    TranscriptFull,
    /// PIV_AUTHENTICATOR_MALFORMED.
    AuthenticatorMalformed,
    /// PIV_INVALID_OID.
    InvalidOid,
    /// PIV_INVALID_CARD_HANDLE.
    InvalidCardHandle,
    /// PIV_CARD_READER_ERROR.
    CardReaderError,
    /// The PIV application is not selected.
    NotSelected,
    /// PIV_CARD_APPLICATION_NOT_FOUND.
    CardApplicationNotFound,
    /// PIV_DATA_OBJECT_NOT_FOUND.
    DataObjectNotFound,
    /// PIV_INSUFFICIENT_CARD_RESOURCE.
    InsufficientCardResource,
    /// PIV_INVALID_KEYREF_OR_ALGORITHM.
    InvalidKeyrefOrAlgorithm,
    /// PIV_INPUT_BYTES_MALFORMED.
    InputBytesMalformed,
    /// A call of the client API that this project doesn't offer.
    Unsupported,
    /// The text of the client API's version.
    Version,
    /// A reset, a cut or a power that was done; a power says how far the command came that had lost it.
    Done { took: Option<Took> },
    /// A reset, a cut or a power that changed nothing.
    Refused { why: Refusal },
}
