use crate::{read_command, read_reply, write_command, write_reply};
use arrayvec::ArrayVec;
use piv_model::Command;
use std::test::Fail;

#[test]
fn reads_each_length_and_le_and_refuses_the_rest(rt: HostRuntime) -> Result<(), Fail> {
    let cases: [(&[u8], Result<(&[u8], usize), u16>); 14] = [
        (&[0x00, 0xCB, 0x3F], Err(0x6700)),
        (&[0x0C, 0xCB, 0x3F], Err(0x6700)),
        (&[0x0C, 0xCB, 0x3F, 0xFF, 0x00], Err(0x6882)),
        (&[0x01, 0xA4, 0x04, 0x00, 0x00], Err(0x6881)),
        (&[0x80, 0xCA, 0x9F, 0x7F, 0x00], Err(0x6E00)),
        (&[0x00, 0xA4, 0x04, 0x00], Ok((&[], 256))),
        (&[0x00, 0xC0, 0x00, 0x00, 0x00], Ok((&[], 256))),
        (&[0x00, 0xC0, 0x00, 0x00, 0x01], Ok((&[], 1))),
        (&[0x00, 0xC0, 0x00, 0x00, 0xFF], Ok((&[], 255))),
        (&[0x00, 0xA4, 0x04, 0x00, 0x00, 0x00], Err(0x6700)),
        (
            &[0x00, 0xA4, 0x04, 0x00, 0x00, 0x00, 0x01, 0x02, 0x03],
            Err(0x6700),
        ),
        (
            &[0x10, 0xCB, 0x3F, 0xFF, 0x02, 0x5C, 0x03],
            Ok((&[0x5C, 0x03], 256)),
        ),
        (
            &[0x00, 0xCB, 0x3F, 0xFF, 0x02, 0x5C, 0x03, 0x04],
            Ok((&[0x5C, 0x03], 4)),
        ),
        (
            &[0x00, 0xCB, 0x3F, 0xFF, 0x01, 0x5C, 0x00, 0x00],
            Err(0x6700),
        ),
    ];
    for (bytes, read) in cases {
        assert!(rt;
            read_command(bytes).map(|apdu| (apdu.body, apdu.most)) == read,
            "{bytes:?}"
        );
    }
    Ok(())
}

#[test]
fn refuses_each_class_by_its_word(rt: HostRuntime) -> Result<(), Fail> {
    let refusals: [(u8, u16); 14] = [
        (0x0C, 0x6882),
        (0x1C, 0x6882),
        (0x01, 0x6881),
        (0x02, 0x6881),
        (0x03, 0x6881),
        (0x11, 0x6881),
        (0x12, 0x6881),
        (0x13, 0x6881),
        (0x04, 0x6E00),
        (0x14, 0x6E00),
        (0x20, 0x6E00),
        (0x80, 0x6E00),
        (0x8C, 0x6E00),
        (0xFF, 0x6E00),
    ];
    for (class, word) in refusals {
        let bytes = [class, 0xA4, 0x04, 0x00, 0x00, 0x00];
        let read = read_command(&bytes).map(|apdu| apdu.class);
        assert!(rt; read == Err(word), "{class}");
    }
    Ok(())
}

#[test]
fn only_three_prefixes_of_a_select_are_whole(rt: HostRuntime) -> Result<(), Fail> {
    let select = [
        0x00, 0xA4, 0x04, 0x00, 0x0B, 0xA0, 0x00, 0x00, 0x03, 0x08, 0x00, 0x00, 0x10, 0x00, 0x01,
        0x00, 0x00,
    ];
    for end in 0..=17usize {
        let read = read_command(&select[..end]).map(|apdu| (apdu.body.len(), apdu.most));
        let expected = match end {
            4 => Ok((0, 256)),
            5 => Ok((0, 11)),
            16 | 17 => Ok((11, 256)),
            _ => Err(0x6700),
        };
        assert!(rt; read == expected, "{end} bytes");
    }
    Ok(())
}

#[test]
fn writes_commands_of_each_length_with_and_without_le(rt: HostRuntime) -> Result<(), Fail> {
    let bytes = [0x5A; 255];
    let cases: [(u8, usize, Option<u8>, &[u8]); 6] = [
        (0x00, 0, None, &[0x00, 0xDB, 0x3F, 0xFF]),
        (0x00, 0, Some(0x00), &[0x00, 0xDB, 0x3F, 0xFF, 0x00]),
        (0x10, 1, None, &[0x10, 0xDB, 0x3F, 0xFF, 0x01, 0x5A]),
        (
            0x00,
            1,
            Some(0x04),
            &[0x00, 0xDB, 0x3F, 0xFF, 0x01, 0x5A, 0x04],
        ),
        (0x10, 255, None, &[0x10, 0xDB, 0x3F, 0xFF, 0xFF, 0x5A]),
        (0x00, 255, Some(0x00), &[0x00, 0xDB, 0x3F, 0xFF, 0xFF, 0x5A]),
    ];
    for (class, size, le, begins) in cases {
        let size = size.min(255);
        let command = Command {
            ins: 0xDB,
            p1: 0x3F,
            p2: 0xFF,
            body: &bytes[..size],
        };
        let mut out = ArrayVec::new();
        if class == 0x00 || class == 0x10 {
            write_command(class, command, le, &mut out);
        }
        let written = out.as_slice();
        assert!(rt; written.starts_with(begins), "{size} bytes");
        let lc = if size == 0 { 0 } else { 1 };
        let (le, most) = match le {
            None => (0, 256),
            Some(0x00) => (1, 256),
            Some(most) => (1, most as usize),
        };
        assert_eq!(rt; written.len(), 4 + lc + size + le);
        let read = read_command(written).map(|apdu| (apdu.class, apdu.body.len(), apdu.most));
        assert!(rt; read == Ok((class, size, most)), "{size} bytes");
    }
    Ok(())
}

#[test]
fn reads_and_writes_the_data_and_then_the_word(rt: HostRuntime) -> Result<(), Fail> {
    let cases: [(&[u8], Option<(&[u8], u16)>); 4] = [
        (&[], None),
        (&[0x90], None),
        (&[0x90, 0x00], Some((&[], 0x9000))),
        (&[0x61, 0x11, 0x6A, 0x82], Some((&[0x61, 0x11], 0x6A82))),
    ];
    for (bytes, reply) in cases {
        assert!(rt; read_reply(bytes) == reply, "{bytes:?}");
        if let Some((body, sw)) = reply {
            let mut out = ArrayVec::new();
            if body.len() <= 256 {
                write_reply(body, sw, &mut out);
            }
            assert_eq!(rt; out.as_slice(), bytes);
        }
    }
    Ok(())
}
