use super::*;
use std::test::Fail;

// Nine authenticators.
const NINE: [u8; 72] = [
    0x67, 6, 0x81, 1, 7, 0x83, 1, 0x81, 0x67, 6, 0x81, 1, 7, 0x83, 1, 0x81, 0x67, 6, 0x81, 1, 7,
    0x83, 1, 0x81, 0x67, 6, 0x81, 1, 7, 0x83, 1, 0x81, 0x67, 6, 0x81, 1, 7, 0x83, 1, 0x81, 0x67, 6,
    0x81, 1, 7, 0x83, 1, 0x81, 0x67, 6, 0x81, 1, 7, 0x83, 1, 0x81, 0x67, 6, 0x81, 1, 7, 0x83, 1,
    0x81, 0x67, 6, 0x81, 1, 7, 0x83, 1, 0x81,
];

const AID: [u8; 11] = [0xA0, 0, 0, 3, 8, 0, 0, 0x10, 0, 1, 0];

#[test]
fn reads_the_tag_of_an_object(rt: HostRuntime) {
    let table: [(&[u8], &[u8]); 4] = [
        (&[0x5C, 3, 0x5F, 0xC1, 0x02], &[0x5F, 0xC1, 0x02]),
        (&[0x5C, 1, 0x7E], &[0x7E]),
        (&[0x5C, 0x81, 3, 0x5F, 0xC1, 0x02], &[0x5F, 0xC1, 0x02]),
        (&[0x5C, 0x83, 0, 0, 2, 0x7F, 0x61], &[0x7F, 0x61]),
    ];
    for (body, tag) in table {
        assert_eq!(rt; tag_list(body), Ok(tag));
    }
    let malformed: [&[u8]; 8] = [
        &[],
        &[0x5C, 0],
        &[0x5C, 4, 0x5F, 0xC1, 0x02, 0],
        &[0x5C, 3, 0x5F, 0xC1],
        &[0x5C, 1, 0x7E, 0],
        &[0x5C, 1, 0x7E, 0x5C, 1, 0x7E],
        &[0x5D, 1, 0x7E],
        &[0x5C, 0x80, 0x7E, 0, 0],
    ];
    for body in malformed {
        assert_eq!(rt; tag_list(body), Err(Malformed), "{body:?}");
    }
}

#[test]
fn reads_what_is_put(rt: HostRuntime) {
    let table: [(&[u8], &[u8], &[u8]); 3] = [
        (
            &[0x5C, 3, 0x5F, 0xC1, 0x02, 0x53, 2, 0xFE, 0],
            &[0x5F, 0xC1, 0x02],
            &[0xFE, 0],
        ),
        (
            &[0x5C, 3, 0x5F, 0xC1, 0x02, 0x53, 0],
            &[0x5F, 0xC1, 0x02],
            &[],
        ),
        (&[0x5C, 1, 0x7D, 0x53, 0x82, 0, 1, 9], &[0x7D], &[9]),
    ];
    for (body, expected_tag, expected_value) in table {
        match put_fields(body) {
            Ok(PutFields::Object { tag, value }) => {
                assert_eq!(rt; tag, expected_tag);
                assert_eq!(rt; value, expected_value);
            }
            _ => assert!(rt; false, "no object in {body:?}"),
        }
    }
    let discoveries: [(&[u8], &[u8]); 2] = [(&[0x7E, 2, 0x4F, 0], &[0x4F, 0]), (&[0x7E, 0], &[])];
    for (body, expected) in discoveries {
        match put_fields(body) {
            Ok(PutFields::Discovery { value }) => assert_eq!(rt; value, expected),
            _ => assert!(rt; false, "no Discovery in {body:?}"),
        }
    }
    let malformed: [&[u8]; 10] = [
        &[],
        &[0x53, 1, 9, 0x5C, 1, 0x7D],
        &[0x5C, 1, 0x7E, 0x53, 0],
        &[0x5C, 1, 0x7D],
        &[0x53, 1, 9],
        &[0x5C, 1, 0x7D, 0x53, 0, 0x53, 0],
        &[0x5C, 0, 0x53, 0],
        &[0x5C, 4, 1, 2, 3, 4, 0x53, 0],
        &[0x7E, 0, 0x53, 0],
        &[0x5C, 1, 0x7D, 0x7E, 0],
    ];
    for body in malformed {
        assert!(rt; put_fields(body).is_err(), "{body:?}");
    }
}

#[test]
fn reads_the_fields_of_a_template_in_any_order(rt: HostRuntime) -> Result<(), Fail> {
    let fields = auth_template(&[0x7C, 4, 0x81, 0, 0x82, 0])
        .ok()
        .ok_or("two empty fields")?;
    assert_eq!(rt; fields.f80, None);
    assert_eq!(rt; fields.f81.map(|field| field.len()), Some(0));
    assert_eq!(rt; fields.f82.map(|field| field.len()), Some(0));

    let mut mutual = [7; 40];
    mutual[..4].copy_from_slice(&[0x7C, 38, 0x82, 0]);
    mutual[4..6].copy_from_slice(&[0x80, 16]);
    mutual[22..24].copy_from_slice(&[0x81, 16]);
    let fields = auth_template(&mutual).ok().ok_or("three fields")?;
    assert_eq!(rt; fields.f80, Some([7; 16].as_slice()));
    assert_eq!(rt; fields.f81, Some([7; 16].as_slice()));
    assert_eq!(rt; fields.f82.map(|field| field.len()), Some(0));

    let fields = auth_template(&[0x7C, 0]).ok().ok_or("no field")?;
    assert!(rt; fields.f80.is_none() && fields.f81.is_none() && fields.f82.is_none());

    let malformed: [&[u8]; 8] = [
        &[],
        &[0x7C, 4, 0x81, 0, 0x81, 0],
        &[0x7C, 6, 0x80, 0, 0x82, 0, 0x80, 0],
        &[0x7C, 2, 0x83, 0],
        &[0x7C, 10, 0x81, 8, 1, 2, 3, 4, 5, 6, 7, 8],
        &[0x7C, 3, 0x81, 0, 0x82],
        &[0x7C, 2, 0x81, 0, 0x82, 0],
        &[0x81, 0],
    ];
    for body in malformed {
        assert!(rt; auth_template(body).is_err(), "{body:?}");
    }
    Ok(())
}

#[test]
fn reads_three_policies(rt: HostRuntime) {
    let mut value = [0; 18];
    value[..2].copy_from_slice(&[0x4F, 11]);
    value[2..13].copy_from_slice(&AID);
    value[13..16].copy_from_slice(&[0x5F, 0x2F, 2]);
    for policy in [[0x40, 0], [0x60, 0x10], [0x60, 0x20]] {
        value[16..].copy_from_slice(&policy);
        assert_eq!(rt; discovery(&value), Ok(policy));
        assert_eq!(rt; discovery(&value[..17]), Err(Malformed));
        assert_eq!(rt; discovery(&value[1..]), Err(Malformed));
    }
    for policy in [[0x40, 0x10], [0x60, 0], [0x60, 0x30], [0x40, 1], [0, 0]] {
        value[16..].copy_from_slice(&policy);
        assert_eq!(rt; discovery(&value), Err(Malformed));
    }
    value[16..].copy_from_slice(&[0x40, 0]);
    for place in 0..16 {
        value[place] ^= 1;
        assert_eq!(rt; discovery(&value), Err(Malformed), "{place}");
        value[place] ^= 1;
    }
    assert_eq!(rt; discovery(&[]), Err(Malformed));
}

#[test]
fn reads_one_to_eight_authenticators(rt: HostRuntime) -> Result<(), Fail> {
    let two = [
        0x67, 8, 0x81, 3, 0x31, 0x32, 0x33, 0x83, 1, 0x80, 0x67, 6, 0x83, 1, 0, 0x81, 1, 9,
    ];
    let list = authenticators(&two).ok().ok_or("two authenticators")?;
    assert_eq!(rt; list.len(), 2);
    let first = list.get(0);
    assert_eq!(rt; first.pin, [0x31, 0x32, 0x33].as_slice());
    assert_eq!(rt; first.reference, 0x80);
    let second = list.get(1);
    assert_eq!(rt; second.pin, [9].as_slice());
    assert_eq!(rt; second.reference, 0);

    let eight = authenticators(&NINE[..64])
        .ok()
        .ok_or("eight authenticators")?;
    assert_eq!(rt; eight.len(), 8);
    assert!(rt; authenticators(&NINE).is_err());
    assert!(rt; authenticators(&NINE[..63]).is_err());

    let mut long = [5; 268];
    long[..8].copy_from_slice(&[0x67, 0x82, 1, 8, 0x81, 0x82, 1, 0]);
    long[264..].copy_from_slice(&[0x83, 0x81, 1, 0x80]);
    assert!(rt; authenticators(&long).is_err());
    long[2..8].copy_from_slice(&[1, 8, 0x81, 0x82, 0, 255]);
    long[263..].copy_from_slice(&[0x83, 0x82, 0, 1, 0x80]);
    assert!(rt; authenticators(&long).is_ok());

    let malformed: [&[u8]; 8] = [
        &[],
        &[0x67, 0],
        &[0x67, 3, 0x81, 1, 9],
        &[0x67, 5, 0x81, 0, 0x83, 1, 0x80],
        &[0x67, 7, 0x81, 1, 9, 0x83, 2, 0x80, 0],
        &[0x67, 8, 0x81, 1, 9, 0x83, 1, 0x80, 0x82, 0],
        &[0x67, 6, 0x81, 1, 9, 0x81, 1, 9],
        &[0x68, 6, 0x81, 1, 9, 0x83, 1, 0x80],
    ];
    for bytes in malformed {
        assert!(rt; authenticators(bytes).is_err(), "{bytes:?}");
    }
    Ok(())
}

#[test]
fn reads_the_name_of_a_reader(rt: HostRuntime) {
    let named: [(&[u8], &str); 3] = [
        (&[0x7F, 0x21, 6, 0x81, 4, b'd', b'e', b's', b'k'], "desk"),
        (&[0x7F, 0x21, 0x81, 6, 0x81, 0x82, 0, 2, b'A', b'9'], "A9"),
        (&[0x7F, 0x21, 4, 0x81, 2, b'-', b'_'], "-_"),
    ];
    for (bytes, name) in named {
        assert_eq!(rt; connection_description(bytes), Ok(name));
    }
    let mut long = [b'z'; 38];
    long[..5].copy_from_slice(&[0x7F, 0x21, 35, 0x81, 33]);
    assert!(rt; connection_description(&long).is_err());
    long[..5].copy_from_slice(&[0x7F, 0x21, 34, 0x81, 32]);
    assert!(rt; connection_description(&long[..37]).is_ok());

    let malformed: [&[u8]; 9] = [
        &[],
        &[0x7F, 0x21, 0],
        &[0x7F, 0x21, 2, 0x81, 0],
        &[0x7F, 0x21, 3, 0x81, 1, b' '],
        &[0x7F, 0x21, 4, 0x81, 2, 0xC3, 0xA9],
        &[0x7F, 0x21, 6, 0x81, 1, b'a', 0x81, 1, b'a'],
        &[0x7F, 0x21, 3, 0x82, 1, b'a'],
        &[0x7F, 0x22, 3, 0x81, 1, b'a'],
        &[0x7F, 0x21, 3, 0x81, 1, b'a', 0],
    ];
    for bytes in malformed {
        assert!(rt; connection_description(bytes).is_err(), "{bytes:?}");
    }
}
