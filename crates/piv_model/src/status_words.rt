//! The status words of the card, by their names in ISO/IEC 7816-4.

ghost use Rattle.std.specs.Prelude.{◌≡◌};
ghost use Rattle.piv_model.specs.StatusWords.{tries_word, piece_word};

/// 67 00.
pub const WRONG_LENGTH: u16 = 0x6700;

/// 68 81.
pub const LOGICAL_CHANNEL_NOT_SUPPORTED: u16 = 0x6881;

/// 68 82.
pub const SECURE_MESSAGING_NOT_SUPPORTED: u16 = 0x6882;

/// 68 83: the last command of the chain was expected.
pub const LAST_COMMAND_EXPECTED: u16 = 0x6883;

/// 69 82.
pub const SECURITY_STATUS_NOT_SATISFIED: u16 = 0x6982;

/// 69 83.
pub const AUTHENTICATION_METHOD_BLOCKED: u16 = 0x6983;

/// 69 85: the conditions of use aren't satisfied.
pub const CONDITIONS_NOT_SATISFIED: u16 = 0x6985;

/// 6A 80: incorrect parameters in the data field.
pub const INCORRECT_DATA: u16 = 0x6A80;

/// 6A 82: file or application not found.
pub const NOT_FOUND: u16 = 0x6A82;

/// 6A 84: not enough memory space.
pub const NOT_ENOUGH_MEMORY: u16 = 0x6A84;

/// 6A 86: incorrect P1 or P2.
pub const INCORRECT_P1_P2: u16 = 0x6A86;

/// 6A 88.
pub const REFERENCE_DATA_NOT_FOUND: u16 = 0x6A88;

/// 6D 00.
pub const INSTRUCTION_NOT_SUPPORTED: u16 = 0x6D00;

/// 6E 00.
pub const CLASS_NOT_SUPPORTED: u16 = 0x6E00;

/// 90 00.
pub const SUCCESS: u16 = 0x9000;

/// 63 CX: the verification failed, and so many tries are left, at most 15.
pub fn verification_failed(left: u8) -> u16
    ensures { result ≡ tries_word left }
{
    0x63C0 + u16::from(left)
}

/// The word that is sent with a piece of a reply behind which so many bytes are left: 90 00 with the last
/// piece, else 61 XX, where XX is 00 for 256 and more.
pub fn piece_word(left: usize) -> u16
    ensures { result ≡ piece_word left }
{
    match left {
        0 => SUCCESS,
        1..256 => 0x6100 + left as u16,
        _ => 0x6100,
    }
}
