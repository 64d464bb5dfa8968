// Words that are read, and words that are not.
use crate::{
    LineFault, is_name, read_body, read_byte, read_bytes, read_mode, read_name, read_number,
    read_oid, read_status, read_upper, read_upper_byte, words_of,
};
use std::process::Abort;
use std::test::Fail;

// A word that scripts read as bytes, the bytes, and whether a history reads it so.
#[rattlefmt::skip]
const BYTES: [(&str, &[u8], bool); 4] = [
    ("00", &[0], true),
    ("9B", &[0x9B], true),
    ("9b", &[0x9B], false),
    ("5C035FC109", &[0x5C, 0x03, 0x5F, 0xC1, 0x09], true),
];

const NO_BYTES: [&str; 7] = ["", "0", "000", "0G", "0x", " 00", "--"];

const NUMBERS: [(&str, u64); 4] = [
    ("0", 0),
    ("7", 7),
    ("16384", 16_384),
    ("18446744073709551615", 18_446_744_073_709_551_615),
];

const NO_NUMBERS: [&str; 9] = [
    "",
    "00",
    "01",
    "+1",
    "-1",
    "1 ",
    "1a",
    "0x1",
    "18446744073709551616",
];

#[test]
fn words_are_cut_at_each_space(rt: HostRuntime) -> Result<(), Fail> {
    let alloc = rt.alloc();
    let words = words_of(alloc, "put  h ")?;
    assert!(rt; matches!(words.as_slice(), ["put", "", "h", ""]));
    let words = words_of(alloc, "")?;
    assert!(rt; matches!(words.as_slice(), [""]));
    Ok(())
}

#[test]
fn bytes_have_digits_of_either_case_in_scripts_and_of_upper_case_in_histories(rt: HostRuntime) {
    for (word, bytes, upper) in BYTES {
        assert!(rt; matches!(&read_bytes(rt.alloc(), word), Ok(read) if read.as_slice() == bytes));
        assert!(rt; read_upper(rt.alloc(), word).is_ok() == upper);
        assert!(rt; read_body(rt.alloc(), word).is_ok() == upper);
    }
    for word in NO_BYTES {
        assert!(rt; matches!(&read_bytes(rt.alloc(), word), Err(LineFault::Malformed)));
        assert!(rt; matches!(&read_body(rt.alloc(), word), Err(LineFault::Malformed)));
    }
    assert!(rt; matches!(&read_bytes(rt.alloc(), "-"), Ok(read) if read.as_slice().is_empty()));
    assert!(rt; matches!(&read_body(rt.alloc(), "-"), Ok(read) if read.as_slice().is_empty()));
}

#[test]
fn a_number_has_no_sign_and_no_leading_zero(rt: HostRuntime) {
    for (word, number) in NUMBERS {
        assert!(rt; read_number(word) == Ok(number));
    }
    for word in NO_NUMBERS {
        assert!(rt; read_number(word) == Err(LineFault::Malformed));
    }
}

#[test]
fn one_byte_has_two_digits_and_a_status_word_four(rt: HostRuntime) {
    let alloc = rt.alloc();
    assert!(rt; read_byte("fF") == Ok(0xFF));
    assert!(rt; read_byte("F") == Err(LineFault::Malformed));
    assert!(rt; read_byte("-") == Err(LineFault::Malformed));
    assert!(rt; read_upper_byte(alloc, "A4") == Ok(0xA4));
    assert!(rt; read_upper_byte(alloc, "a4") == Err(LineFault::Malformed));
    assert!(rt; read_upper_byte(alloc, "A4A4") == Err(LineFault::Malformed));
    assert!(rt; read_status(alloc, "6A82") == Ok(0x6A82));
    assert!(rt; read_status(alloc, "6a82") == Err(LineFault::Malformed));
    assert!(rt; read_status(alloc, "6A") == Err(LineFault::Malformed));
}

#[test]
fn names_and_identifiers_have_their_letters_and_lengths(rt: HostRuntime) {
    let alloc = rt.alloc();
    assert!(rt; is_name("abcdefghijklmnopqrstuvwxyz-_0123"));
    assert!(rt; !is_name("abcdefghijklmnopqrstuvwxyz-_01234"));
    assert!(rt; !is_name("") && !is_name("a.b") && !is_name("\u{E9}"));
    assert!(rt; matches!(&read_name(alloc, "A-1_b"), Ok(name) if name.as_str() == "A-1_b"));
    assert!(rt; matches!(&read_name(alloc, "a b"), Err(LineFault::Malformed)));
    assert!(rt; matches!(&read_oid(alloc, "2.16.840"), Ok(oid) if oid.as_str() == "2.16.840"));
    assert!(rt; matches!(&read_oid(alloc, "2.16.x"), Err(LineFault::Malformed)));
    assert!(rt; read_mode("shared") == Ok(true) && read_mode("exclusive") == Ok(false));
    assert!(rt; read_mode("Shared") == Err(LineFault::Malformed));
}
