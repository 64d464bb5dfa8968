use super::*;
use piv_model::RefId;

// The PIN 123456.
const PIN: [u8; 8] = [0x31, 0x32, 0x33, 0x34, 0x35, 0x36, 0xFF, 0xFF];

// The PIN 654321.
const NEW_PIN: [u8; 8] = [0x36, 0x35, 0x34, 0x33, 0x32, 0x31, 0xFF, 0xFF];

// Eight bytes that are no PIN.
const ANY: [u8; 8] = [0x00, 0xFF, 0x41, 0x31, 0x80, 0x7F, 0x30, 0x3A];

// Two values, and a byte behind them.
fn with_a_byte_behind(first: [u8; 8], second: [u8; 8]) -> [u8; 17] {
    let mut bytes = [0xFF; 17];
    bytes[..8].copy_from_slice(&first);
    bytes[8..16].copy_from_slice(&second);
    bytes
}

#[test]
fn a_pin_is_six_to_eight_digits_and_fill(rt: HostRuntime) {
    let pins = [
        PIN,
        [0x31, 0x32, 0x33, 0x34, 0x35, 0x36, 0x37, 0xFF],
        [0x31, 0x32, 0x33, 0x34, 0x35, 0x36, 0x37, 0x38],
        [0x30, 0x39, 0x30, 0x39, 0x30, 0x39, 0x30, 0x39],
    ];
    for pin in pins {
        assert_eq!(rt; read_pin(&pin), Some(pin), "{pin:?}");
    }
    let others: [&[u8]; 11] = [
        &[],
        &[0x31, 0x32, 0x33, 0x34, 0x35, 0x36],
        &[0x31, 0x32, 0x33, 0x34, 0x35, 0x36, 0x37],
        &[0x31, 0x32, 0x33, 0x34, 0x35, 0x36, 0x37, 0x38, 0x39],
        &[0x31, 0x32, 0x33, 0x34, 0x35, 0x36, 0xFF, 0xFF, 0xFF],
        // Five digits.
        &[0x31, 0x32, 0x33, 0x34, 0x35, 0xFF, 0xFF, 0xFF],
        // A digit behind the fill, and fill in front.
        &[0x31, 0x32, 0x33, 0x34, 0x35, 0x36, 0xFF, 0x38],
        &[0xFF, 0xFF, 0x31, 0x32, 0x33, 0x34, 0x35, 0x36],
        // A letter, and the neighbours of the digits.
        &[0x31, 0x32, 0x33, 0x41, 0x35, 0x36, 0xFF, 0xFF],
        &[0x2F, 0x32, 0x33, 0x34, 0x35, 0x36, 0xFF, 0xFF],
        &[0x31, 0x32, 0x33, 0x34, 0x35, 0x36, 0x37, 0x3A],
    ];
    for bytes in others {
        assert_eq!(rt; read_pin(bytes), None, "{bytes:?}");
    }
}

#[test]
fn a_puk_is_any_eight_bytes(rt: HostRuntime) {
    for puk in [PIN, ANY, [0x00; 8], [0xFF; 8]] {
        assert_eq!(rt; read_puk(&puk), Some(puk), "{puk:?}");
    }
    for size in [0, 1, 7, 9, 16] {
        assert_eq!(rt; read_puk(&[0x31; 16][..size]), None, "{size}");
    }
}

#[test]
fn a_pair_is_two_values_of_its_reference(rt: HostRuntime) {
    let table = [
        (RefId::Pin, PIN, NEW_PIN, true),
        (RefId::Pin, ANY, NEW_PIN, false),
        (RefId::Pin, PIN, ANY, false),
        (RefId::GlobalPin, NEW_PIN, PIN, true),
        (RefId::GlobalPin, ANY, PIN, false),
        (RefId::GlobalPin, NEW_PIN, ANY, false),
        (RefId::Puk, ANY, [0x00; 8], true),
    ];
    for (reference, old, new, is_pair) in table {
        let bytes = with_a_byte_behind(old, new);
        let expected = is_pair.then_some((old, new));
        assert_eq!(rt;
            read_pair(reference, &bytes[..16]),
            expected,
            "{reference:?} {bytes:?}"
        );
    }
    let bytes = with_a_byte_behind(PIN, NEW_PIN);
    for reference in [RefId::Pin, RefId::GlobalPin, RefId::Puk] {
        for size in [0, 8, 15, 17] {
            assert_eq!(rt;
                read_pair(reference, &bytes[..size]),
                None,
                "{reference:?} {size}"
            );
        }
    }
}

#[test]
fn an_unblock_is_a_puk_and_a_pin(rt: HostRuntime) {
    let table = [
        (ANY, NEW_PIN, true),
        (PIN, NEW_PIN, true),
        (PIN, ANY, false),
        (ANY, [0x31, 0x32, 0x33, 0x34, 0x35, 0xFF, 0xFF, 0xFF], false),
    ];
    for (puk, pin, is_unblock) in table {
        let bytes = with_a_byte_behind(puk, pin);
        let expected = is_unblock.then_some((puk, pin));
        assert_eq!(rt; read_unblock(&bytes[..16]), expected, "{bytes:?}");
    }
    let bytes = with_a_byte_behind(ANY, NEW_PIN);
    for size in [0, 8, 15, 17] {
        assert_eq!(rt; read_unblock(&bytes[..size]), None, "{size}");
    }
}
