// Bytes that are given by their digits: values, secrets and keys.
ghost use Rattle.std.specs.Prelude.{◌≡◌, ◌≤◌, length, None, ◌==◌};
ghost use Rattle.toml.specs.Data.{get_member};
ghost use Rattle.toml.specs.View.{view, table_view};
ghost use Rattle.line_words.specs.Words.{Gives};
ghost use Rattle.scene_table.specs.Answers.{GivesBy};
ghost use Rattle.scene_table.specs.Readings.{or_default};
ghost use Rattle.scene_table.specs.Values.{such_that, digits as digits_of, some_digits as some_digits_of, one_byte as one_byte_of, random_value, pin_value, optional_pin, puk_value, padded as padded_of, key_bytes as key_bytes_of, key_value};

use crate::values::find;
use line_words::LineFault;
use piv_model::KeyBytes;
use piv_references::{read_pin, read_puk};
use std::alloc::Global;
use toml::{Table, Value};

/// The bytes that a string spells: an even number of digits of either case.
pub fn digits(alloc: Global, value: &Value) -> Result<Vec<u8>, LineFault>
    ensures { GivesBy (λ v. v.items) result (digits_of (view value.now)) }
{
    match value.as_str() {
        Some(text) => match hex::decode(alloc, text) {
            Ok(bytes) => Ok(bytes),
            Err(fault) => match fault {
                hex::FromHexError::OutOfMemory => Err(LineFault::NoMemory),
                _ => Err(LineFault::Malformed),
            },
        },
        None => Err(LineFault::Malformed),
    }
}

/// Bytes of which there are some.
pub fn some_digits(alloc: Global, value: &Value) -> Result<Vec<u8>, LineFault>
    ensures { GivesBy (λ v. v.items) result (some_digits_of (view value.now)) }
{
    let bytes = digits(alloc, value)?;
    if bytes.as_slice().len() >= 1 {
        Ok(bytes)
    } else {
        Err(LineFault::Malformed)
    }
}

/// One byte: two digits.
pub fn one_byte(alloc: Global, value: &Value) -> Result<u8, LineFault>
    ensures { Gives result (one_byte_of (view value.now)) }
{
    let bytes = digits(alloc, value)?;
    match bytes.as_slice() {
        [byte] => Ok(*byte),
        _ => Err(LineFault::Malformed),
    }
}

fn random_bytes(bytes: &[u8]) -> Option<[u8; 32]>
    ensures { result ≡ such_that (λ b. length b == 32) bytes.now }
{
    bytes.try_into().ok()
}

/// 32 bytes, or others where the key is absent.
pub fn random_or(
    alloc: Global,
    table: &Table,
    key: &str,
    absent: [u8; 32],
) -> Result<[u8; 32], LineFault>
    ensures { Gives result (or_default absent random_value (get_member key.now (table_view table.now))) }
{
    match find(table, key) {
        None => Ok(absent),
        Some(value) => {
            let bytes = digits(alloc, value)?;
            match random_bytes(bytes.as_slice()) {
                Some(random) => Ok(random),
                None => Err(LineFault::Malformed),
            }
        }
    }
}

/// A PUK, or another where the key is absent.
pub fn puk_or(
    alloc: Global,
    table: &Table,
    key: &str,
    absent: [u8; 8],
) -> Result<[u8; 8], LineFault>
    ensures { Gives result (or_default absent puk_value (get_member key.now (table_view table.now))) }
{
    match find(table, key) {
        None => Ok(absent),
        Some(value) => {
            let bytes = digits(alloc, value)?;
            match read_puk(bytes.as_slice()) {
                Some(puk) => Ok(puk),
                None => Err(LineFault::Malformed),
            }
        }
    }
}

fn pin_of(alloc: Global, value: &Value) -> Result<[u8; 8], LineFault>
    ensures { Gives result (pin_value (view value.now)) }
{
    let bytes = digits(alloc, value)?;
    match read_pin(bytes.as_slice()) {
        Some(pin) => Ok(pin),
        None => Err(LineFault::Malformed),
    }
}

/// A PIN, or another where the key is absent.
pub fn pin_or(
    alloc: Global,
    table: &Table,
    key: &str,
    absent: [u8; 8],
) -> Result<[u8; 8], LineFault>
    ensures { Gives result (or_default absent pin_value (get_member key.now (table_view table.now))) }
{
    match find(table, key) {
        None => Ok(absent),
        Some(value) => pin_of(alloc, value),
    }
}

/// A PIN, if the key is there.
pub fn pin_if_any(alloc: Global, table: &Table, key: &str) -> Result<Option<[u8; 8]>, LineFault>
    ensures { Gives result (or_default None optional_pin (get_member key.now (table_view table.now))) }
{
    match find(table, key) {
        None => Ok(None),
        Some(value) => Ok(Some(pin_of(alloc, value)?)),
    }
}

// A key, and behind it zeros.
fn padded(key: &[u8]) -> [u8; 32]
    requires { length key.now ≤ 32 }
    ensures { result ≡ padded_of key.now }
{
    let mut bytes = [0; 32];
    bytes[..key.len()].copy_from_slice(key);
    bytes
}

fn key_bytes(key: &[u8]) -> Option<KeyBytes>
    ensures { result ≡ key_bytes_of key.now }
{
    match key.len() {
        16 => Some(KeyBytes {
            algorithm: 0x08,
            bytes: padded(key),
        }),
        24 => Some(KeyBytes {
            algorithm: 0x0A,
            bytes: padded(key),
        }),
        32 => Some(KeyBytes {
            algorithm: 0x0C,
            bytes: padded(key),
        }),
        _ => None,
    }
}

/// A key of AES, whose length gives the algorithm, or another where the key of the table is absent.
pub fn key_or(
    alloc: Global,
    table: &Table,
    key: &str,
    absent: KeyBytes,
) -> Result<KeyBytes, LineFault>
    ensures { Gives result (or_default absent key_value (get_member key.now (table_view table.now))) }
{
    match find(table, key) {
        None => Ok(absent),
        Some(value) => {
            let bytes = digits(alloc, value)?;
            match key_bytes(bytes.as_slice()) {
                Some(key) => Ok(key),
                None => Err(LineFault::Malformed),
            }
        }
    }
}
