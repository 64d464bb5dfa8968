use super::*;
use std::process::Abort;

// How many elements come before the end or the fault, and the fault.
fn counted(bytes: &[u8]) -> (usize, Option<TlvFault>) {
    let mut cursor = Cursor::new(bytes);
    for count in 0..bytes.len() {
        match cursor.next() {
            Ok(Some(_)) => {}
            Ok(None) => return (count, None),
            Err(fault) => return (count, Some(fault)),
        }
    }
    (bytes.len(), None)
}

fn expect_next(rt: &impl Abort, cursor: &mut Cursor<'_>, tag: u32, value: &[u8]) {
    match cursor.next() {
        Ok(Some(tlv)) => {
            assert_eq!(rt; tlv.tag, tag);
            assert_eq!(rt; tlv.value, value);
        }
        _ => assert!(rt; false, "no element {tag:x}"),
    }
}

fn expect_fault(rt: &impl Abort, bytes: &[u8], at: usize, kind: TlvKind) {
    let mut cursor = Cursor::new(bytes);
    for _ in 0..bytes.len() {
        let left = cursor.rest().len();
        match cursor.next() {
            Ok(Some(_)) => {}
            Ok(None) => break,
            Err(fault) => {
                assert_eq!(rt; fault, TlvFault { at, kind }, "{bytes:?}");
                assert_eq!(rt; cursor.rest().len(), left);
                return;
            }
        }
    }
    assert!(rt; false, "no fault in {bytes:?}");
}

#[test]
fn reads_a_template_and_its_empty_fields(rt: HostRuntime) {
    let mut cursor = Cursor::new(&[0x7C, 4, 0x81, 0, 0x82, 0]);
    expect_next(&rt, &mut cursor, 0x7C, &[0x81, 0, 0x82, 0]);
    assert!(rt; matches!(cursor.next(), Ok(None)));

    let mut fields = Cursor::new(&[0x81, 0, 0x82, 0]);
    expect_next(&rt, &mut fields, 0x81, &[]);
    assert_eq!(rt; fields.rest(), [0x82, 0].as_slice());
    expect_next(&rt, &mut fields, 0x82, &[]);
    assert!(rt; matches!(fields.next(), Ok(None)));
}

#[test]
fn reads_each_form_of_tag_and_length(rt: HostRuntime) {
    let mut cursor = Cursor::new(&[
        0x5F, 0x2F, 1, 7, 0x5F, 0xC1, 0x02, 0x81, 1, 8, 0x53, 0x82, 0, 1, 9, 0x7E, 0x83, 0, 0, 1,
        10,
    ]);
    expect_next(&rt, &mut cursor, 0x5F2F, &[7]);
    expect_next(&rt, &mut cursor, 0x5F_C102, &[8]);
    expect_next(&rt, &mut cursor, 0x53, &[9]);
    expect_next(&rt, &mut cursor, 0x7E, &[10]);
    assert!(rt; matches!(cursor.next(), Ok(None)));
}

#[test]
fn says_where_and_why_no_element_begins(rt: HostRuntime) {
    let table: [(&[u8], usize, TlvKind); 18] = [
        (&[0x53, 0x82, 0x01], 0, TlvKind::Short),
        (&[0x5F, 0xFF, 0xFF, 0x01], 0, TlvKind::TagLong),
        (&[0x53, 0x83, 0x01, 0x00, 0x00], 0, TlvKind::LengthBad),
        // A length that ends beyond the input, in each form.
        (&[0x5C, 4, 0x5F, 0xC1, 0x02], 0, TlvKind::Short),
        (&[0x5C, 0x81, 2, 0x7E], 0, TlvKind::Short),
        (&[0x53, 0x82, 0xFF, 0xFF, 0], 0, TlvKind::Short),
        (&[0x53, 0x83, 0x00, 0xFF, 0xFF, 0], 0, TlvKind::Short),
        // Lengths that aren't admitted.
        (&[0x53, 0x80, 0, 0], 0, TlvKind::LengthBad),
        (&[0x53, 0x84, 0, 0, 0, 1, 0], 0, TlvKind::LengthBad),
        (&[0x53, 0x83, 0xFF, 0xFF, 0xFF], 0, TlvKind::LengthBad),
        (&[0x53, 0xFF], 0, TlvKind::LengthBad),
        // Tags of four bytes, and tags that are cut off.
        (&[0x1F, 0x81, 0x82, 0x03, 0], 0, TlvKind::TagLong),
        (&[0x7F, 0xFF, 0xFF, 0xFF, 0x7F, 0], 0, TlvKind::TagLong),
        (&[0x5F], 0, TlvKind::Short),
        (&[0x5F, 0xFF], 0, TlvKind::Short),
        (&[0x53], 0, TlvKind::Short),
        // Places count from the first byte of the input.
        (&[0x7C, 0, 0x53, 0x82, 0x01], 2, TlvKind::Short),
        (
            &[0x7C, 1, 0xAA, 0x5F, 0x2F, 0, 0x80, 0x80],
            6,
            TlvKind::LengthBad,
        ),
    ];
    for (bytes, at, kind) in table {
        expect_fault(&rt, bytes, at, kind);
    }
}

#[test]
fn each_prefix_is_a_shorter_list_or_is_cut_short_at_an_element(rt: HostRuntime) {
    // Lists of elements, and where their elements end.
    let table: [(&[u8], &[usize]); 3] = [
        (&[0x5C, 3, 0x5F, 0xC1, 0x02, 0x53, 2, 0xFE, 0x00], &[5, 9]),
        (
            &[
                0x4F, 11, 0xA0, 0, 0, 3, 8, 0, 0, 0x10, 0, 1, 0, 0x5F, 0x2F, 2, 0x40, 0,
            ],
            &[13, 18],
        ),
        (
            &[
                0x7F, 0x21, 0x81, 1, 0x41, 0x83, 0, 0x5F, 0xC1, 0x21, 0x83, 0, 0, 2, 1, 2, 0x67,
                0x82, 0, 1, 7,
            ],
            &[5, 7, 16, 21],
        ),
    ];
    for (bytes, ends) in table {
        for size in 0..bytes.len() {
            let whole = ends.iter().filter(|end| **end <= size).count();
            let (count, fault) = counted(&bytes[..size]);
            assert_eq!(rt; count, whole, "{size}");
            let start = ends
                .iter()
                .copied()
                .filter(|end| *end <= size)
                .max()
                .unwrap_or(0);
            let expected = if start == size {
                None
            } else {
                Some(TlvFault {
                    at: start,
                    kind: TlvKind::Short,
                })
            };
            assert_eq!(rt; fault, expected, "{size}");
        }
        assert_eq!(rt; counted(bytes), (ends.len(), None));
    }
}

#[test]
fn ends_on_nothing_and_on_long_inputs(rt: HostRuntime) {
    assert_eq!(rt; counted(&[]), (0, None));
    assert_eq!(rt; counted(&[0; 16_384]), (8_192, None));
    expect_fault(&rt, &[0; 16_383], 16_382, TlvKind::Short);
    expect_fault(&rt, &[0xFF; 16_384], 0, TlvKind::TagLong);
}

#[test]
fn writes_the_shortest_length(rt: HostRuntime) {
    assert_eq!(rt; header(0x53, 128).as_slice(), [0x53, 0x81, 0x80].as_slice());
    assert_eq!(rt;
        header(0x53, 256).as_slice(),
        [0x53, 0x82, 0x01, 0x00].as_slice()
    );
    assert_eq!(rt; header(0x53, 0).as_slice(), [0x53, 0].as_slice());
    assert_eq!(rt; header(0x7C, 127).as_slice(), [0x7C, 0x7F].as_slice());
    assert_eq!(rt; header(0x7E, 255).as_slice(), [0x7E, 0x81, 0xFF].as_slice());
    assert_eq!(rt; header(0x5F2F, 2).as_slice(), [0x5F, 0x2F, 2].as_slice());
    assert_eq!(rt;
        header(0x5F_C102, 65_535).as_slice(),
        [0x5F, 0xC1, 0x02, 0x82, 0xFF, 0xFF].as_slice()
    );
}
