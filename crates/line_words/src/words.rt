// The words of a line, and what each of them may be.
ghost use Rattle.std.specs.Prelude.{◌≡◌, map, IfOk};
ghost use Rattle.std.specs.List.{list_all};
ghost use Rattle.std.specs.Result.{result_ok};
ghost use Rattle.hex.specs.Hex.{decode_of};
ghost use Rattle.line_words.specs.Words.{words as words_in, Gives, name_word, oid_word, bytes_word, is_name_byte as is_name_byte_of, is_name as is_name_word, is_oid_byte as is_oid_byte_of, is_oid as is_oid_word, number_word, byte_word, is_plain as is_plain_word, mode_word};

use crate::fault::LineFault;
use crate::text::{Bytes, Text};
use hex::{FromHex, FromHexError};
use std::alloc::{AllocError, Global};

/// The words of a line, which are separated by one space.
pub fn words_of(alloc: Global, text: &str) -> Result<Vec<&str>, AllocError>
    ensures { IfOk result (λ v. map (λ x. x.now) v.items ≡ words_in text.now) }
{
    text.split(' ').collect(alloc)
}

fn is_name_byte(b: u8) -> bool
    ensures { result ≡ is_name_byte_of b }
{
    b.is_ascii_alphanumeric() || b == b'-' || b == b'_'
}

fn is_oid_byte(b: u8) -> bool
    ensures { result ≡ is_oid_byte_of b }
{
    b.is_ascii_digit() || b == b'.'
}

fn are_name_bytes(word: &[u8]) -> bool
    ensures { result ≡ list_all is_name_byte_of word.now }
{
    word.iter().all(|b| is_name_byte(*b))
}

fn are_oid_bytes(word: &[u8]) -> bool
    ensures { result ≡ list_all is_oid_byte_of word.now }
{
    word.iter().all(|b| is_oid_byte(*b))
}

#[tactic(auto, unfolding(crate::specs::Words::is_name))]
pub fn is_name(word: &str) -> bool
    ensures { result ≡ is_name_word word.now }
{
    match word.len() {
        1..=32 => are_name_bytes(word.as_bytes()),
        _ => false,
    }
}

#[tactic(auto, unfolding(crate::specs::Words::is_oid))]
fn is_oid(word: &str) -> bool
    ensures { result ≡ is_oid_word word.now }
{
    match word.len() {
        1..=64 => are_oid_bytes(word.as_bytes()),
        _ => false,
    }
}

/// A name: 1 to 32 letters, digits, dashes or underscores.
pub fn read_name(alloc: Global, word: &str) -> Result<Text, LineFault>
    ensures { Gives result (name_word word.now) }
{
    if !is_name(word) {
        return Err(LineFault::Malformed);
    }
    Text::new(alloc, word)
}

/// An object identifier: 1 to 64 digits and points.
pub fn read_oid(alloc: Global, word: &str) -> Result<Text, LineFault>
    ensures { Gives result (oid_word word.now) }
{
    if !is_oid(word) {
        return Err(LineFault::Malformed);
    }
    Text::new(alloc, word)
}

/// Bytes: an even number of digits of either case, or a dash for none.
#[tactic(auto, unfolding(crate::specs::Words::bytes_word))]
pub fn read_bytes(alloc: Global, word: &str) -> Result<Bytes, LineFault>
    ensures { Gives result (bytes_word word.now) }
{
    match word {
        "" => Err(LineFault::Malformed),
        "-" => Ok(Bytes::new(Vec::new(alloc))),
        _ => decode(alloc, word),
    }
}

pub(crate) fn decode(alloc: Global, word: &str) -> Result<Bytes, LineFault>
    ensures { Gives result (result_ok (decode_of word.now)) }
{
    match hex::decode(alloc, word) {
        Ok(bytes) => Ok(Bytes::new(bytes)),
        Err(fault) => match fault {
            FromHexError::OutOfMemory => Err(LineFault::NoMemory),
            _ => Err(LineFault::Malformed),
        },
    }
}

/// One byte: two digits of either case.
#[tactic(auto, unfolding(crate::specs::Words::byte_word))]
pub fn read_byte(word: &str) -> Result<u8, LineFault>
    ensures { Gives result (byte_word word.now) }
{
    match <[u8; 1] as FromHex>::from_hex(word) {
        Ok(bytes) => Ok(bytes[0]),
        Err(_) => Err(LineFault::Malformed),
    }
}

// No plus and no leading zero.
fn is_plain(word: &[u8]) -> bool
    ensures { result ≡ is_plain_word word.now }
{
    match word {
        [first, rest @ ..] => *first != b'+' && (*first != b'0' || rest.is_empty()),
        [] => false,
    }
}

/// A number of 64 bits in decimal, without leading zeros.
pub fn read_number(word: &str) -> Result<u64, LineFault>
    ensures { Gives result (number_word word.now) }
{
    if !is_plain(word.as_bytes()) {
        return Err(LineFault::Malformed);
    }
    match word.parse() {
        Ok(number) => Ok(number),
        Err(_) => Err(LineFault::Malformed),
    }
}

/// How a connection is opened: whether it is shared.
pub fn read_mode(mode: &str) -> Result<bool, LineFault>
    ensures { Gives result (mode_word mode.now) }
{
    match mode {
        "shared" => Ok(true),
        "exclusive" => Ok(false),
        _ => Err(LineFault::Malformed),
    }
}
