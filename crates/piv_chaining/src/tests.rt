ghost use Rattle.std.specs.Prelude.{◌≡◌, ◌≤◌, length};

use crate::{Joined, Joiner, Pieces};
use piv_model::Apdu;
use std::alloc::{AllocError, Global};
use std::test::Fail;

const BYTES: [u8; 255] = [0x5A; 255];

fn apdu<'a>(class: u8, header: [u8; 3], body: &'a [u8]) -> Apdu<'a> {
    let [ins, p1, p2] = header;
    Apdu {
        class,
        ins,
        p1,
        p2,
        body,
        most: 256,
    }
}

fn get_data<'a>(class: u8, p2: u8, body: &'a [u8]) -> Apdu<'a> {
    apdu(class, [0xCB, 0x3F, p2], body)
}

// What feeding an APDU came to: 90 00 for a part, 00 00 for a whole command with its number of bytes.
fn fed(joiner: &mut Joiner, apdu: &Apdu<'_>) -> (u16, usize) {
    match joiner.feed(apdu) {
        Joined::Part => (0x9000, 0),
        Joined::Whole(command) => (0x0000, command.body.len()),
        Joined::Refused(word) => (word, 0),
    }
}

#[test]
fn a_command_in_two_parts_is_joined_under_one_header(rt: HostRuntime) -> Result<(), Fail> {
    let mut joiner = Joiner::new(rt.alloc())?;
    assert!(rt; fed(&mut joiner, &get_data(0x10, 0xFF, &[0x5C, 0x03])) == (0x9000, 0));
    assert!(rt; joiner.held() == 2 && joiner.has_chain());
    match joiner.feed(&get_data(0x00, 0xFF, &[0x5F, 0xC1, 0x02])) {
        Joined::Whole(command) => {
            assert!(rt; command.ins == 0xCB && command.p1 == 0x3F && command.p2 == 0xFF);
            assert_eq!(rt; command.body, [0x5C, 0x03, 0x5F, 0xC1, 0x02].as_slice());
        }
        _ => assert!(rt; false, "the command isn't whole"),
    }
    assert!(rt; joiner.held() == 0 && !joiner.has_chain());
    Ok(())
}

#[test]
fn another_header_ends_the_chain(rt: HostRuntime) -> Result<(), Fail> {
    let header = [0xCB, 0x3F, 0xFF];
    let get_response = [0xC0, 0x00, 0x00];
    let rows: [(u8, [u8; 3], &[u8], (u16, usize)); 8] = [
        (0x10, header, &[0x5C, 0x03], (0x9000, 0)),
        (0x00, [0xCB, 0x3F, 0xFE], &[0x5F, 0xC1, 0x02], (0x6883, 0)),
        (0x00, header, &[0x5C, 0x03, 0x5F, 0xC1, 0x02], (0x0000, 5)),
        (0x10, header, &[0x5C, 0x03], (0x9000, 0)),
        (0x00, get_response, &[], (0x6883, 0)),
        (0x10, header, &[0x5C, 0x03], (0x9000, 0)),
        (0x10, [0xCB, 0x3E, 0xFF], &[0x5F], (0x6883, 0)),
        (0x00, header, &[], (0x0000, 0)),
    ];
    let mut joiner = Joiner::new(rt.alloc())?;
    for (class, header, body, expected) in rows {
        assert!(rt;
            fed(&mut joiner, &apdu(class, header, body)) == expected,
            "{body:?}"
        );
    }
    Ok(())
}

// Feeds 65 parts of 255 bytes, 16,575 together.
fn with_65_parts(alloc: Global) -> Result<Option<Joiner>, piv_model::NoMemory> {
    let mut joiner = Joiner::new(alloc)?;
    for _ in 0..65u8 {
        if fed(&mut joiner, &get_data(0x10, 0xFF, &BYTES)) != (0x9000, 0) {
            return Ok(None);
        }
    }
    Ok(Some(joiner))
}

#[test]
fn a_chain_has_at_most_16640_bytes(rt: HostRuntime) -> Result<(), Fail> {
    let rows = [
        (0x00, 65, (0x0000, 16_640)),
        (0x00, 66, (0x6700, 0)),
        (0x10, 65, (0x9000, 0)),
        (0x10, 66, (0x6700, 0)),
        (0x10, 255, (0x6700, 0)),
    ];
    for (class, size, expected) in rows {
        let mut joiner = with_65_parts(rt.alloc())?.ok_or("refused")?;
        assert!(rt; joiner.held() == 16_575);
        let last = get_data(class, 0xFF, &BYTES[..size]);
        assert!(rt; fed(&mut joiner, &last) == expected, "{class} {size}");
        let held = if class == 0x10 && size == 65 {
            16_640
        } else {
            0
        };
        assert!(rt; joiner.held() == held);
    }
    Ok(())
}

#[test]
fn a_dropped_chain_is_no_chain(rt: HostRuntime) -> Result<(), Fail> {
    let mut joiner = Joiner::new(rt.alloc())?;
    let _ = joiner.join(&get_data(0x10, 0xFF, &BYTES));
    joiner.drop_chain();
    assert!(rt; joiner.held() == 0);
    assert!(rt; fed(&mut joiner, &get_data(0x00, 0xFE, &[0x5C])) == (0x0000, 1));
    Ok(())
}

// The pieces of at most `most` bytes, and whether each word told how many bytes were left.
fn given(alloc: Global, pieces: &mut Pieces, most: usize) -> Result<(Vec<u8>, bool), AllocError>
    requires low { 1 ≤ most }
    requires high { most ≤ 256 }
{
    let mut all = Vec::new(alloc);
    let mut told = true;
    for _ in 0..16_400u16 {
        let left = pieces.waiting().saturating_sub(most);
        match pieces.next(most) {
            Some((piece, word)) => {
                let expected = match left {
                    0 => 0x9000,
                    1..=255 => 0x6100 + left as u16,
                    _ => 0x6100,
                };
                told = told && word == expected;
                all.extend_from_slice(piece)?;
            }
            None => return Ok((all, told)),
        }
    }
    Ok((all, false))
}

#[test]
fn pieces_of_any_length_are_the_whole_reply(rt: HostRuntime) -> Result<(), Fail> {
    let data = [0xA5; 16_388];
    for most in [1, 255, 256] {
        let mut pieces = Pieces::new(rt.alloc())?;
        pieces.load().push(&data);
        let (all, told) = given(rt.alloc(), &mut pieces, most)?;
        assert!(rt; told && all.as_slice() == data.as_slice(), "{most}");
        assert!(rt; pieces.waiting() == 0);
    }
    Ok(())
}

#[test]
fn a_rest_is_announced_by_its_number_of_bytes(rt: HostRuntime) -> Result<(), Fail> {
    let reply = [0x53, 0x04, 0x3E, 0x00, 0xFE, 0x00];
    let mut pieces = Pieces::new(rt.alloc())?;
    pieces.load().push(&reply);
    assert!(rt; pieces.next(4) == Some((&[0x53, 0x04, 0x3E, 0x00], 0x6102)));
    assert!(rt; pieces.waiting() == 2);
    assert!(rt; pieces.next(256) == Some((&[0xFE, 0x00], 0x9000)));
    assert!(rt; pieces.next(256).is_none());
    pieces.load().push(&reply);
    pieces.clear();
    assert!(rt; pieces.next(256).is_none());
    Ok(())
}

#[test]
fn what_is_written_into_lent_room_waits_behind_what_was_pushed(
    rt: HostRuntime,
) -> Result<(), Fail> {
    let reply = [0x53, 0x04, 0x3E, 0x00, 0xFE, 0x00];
    let mut pieces = Pieces::new(rt.alloc())?;
    pieces.load().push(&reply[..2]);
    pieces.lend(4).copy_from_slice(&reply[2..]);
    assert!(rt; pieces.next(256) == Some((reply.as_slice(), 0x9000)));
    pieces.load().lend(6).copy_from_slice(&reply);
    assert!(rt; pieces.next(256) == Some((reply.as_slice(), 0x9000)));
    Ok(())
}

fn moves<T: Send>(value: T) -> T {
    value
}

#[test]
fn both_may_be_moved_between_threads(rt: HostRuntime) -> Result<(), Fail> {
    let joiner = moves(Joiner::new(rt.alloc())?);
    let pieces = moves(Pieces::new(rt.alloc())?);
    assert!(rt; joiner.held() == 0 && pieces.waiting() == 0);
    Ok(())
}
