// Room for objects, over the store in memory.
ghost use Rattle.std.specs.Prelude.{◌≤◌};

use crate::commands::{Card, card_of, expect, plain_card, spelled};
use memory_store::{Leaves, Loss};
use piv_model::{Command, Store};
use std::alloc::Global;
use std::test::Fail;
use test_starts::small_start;

const ADMINISTRATOR: &str = "
    select template
    challenge challenged
    response 9000
";

// The last bytes of the tags of the CHUID, the PIV authentication certificate, the security object and the printed information.
const CHUID: u8 = 0x02;

const CERTIFICATE: u8 = 0x05;

const SECURITY: u8 = 0x06;

const PRINTED: u8 = 0x09;

// A value of so many bytes for an object whose tag ends so, with its elements.
fn put_of(alloc: Global, tag: u8, size: usize) -> Result<Vec<u8>, Fail>
    requires { size ≤ 65535 }
{
    let mut body = Vec::new(alloc);
    body.extend_from_slice(&[0x5C, 0x03, 0x5F, 0xC1, tag, 0x53, 0x82])?;
    body.extend_from_slice(&(size as u16).to_be_bytes())?;
    body.resize(9 + size, 0xA5)?;
    Ok(body)
}

// The answer to a put of so many bytes; of none it removes the object.
fn put<S: Store>(card: &mut Card<S>, alloc: Global, tag: u8, size: usize) -> Result<String, Fail>
    requires { size ≤ 65535 }
{
    let body = put_of(alloc, tag, size)?;
    let command = Command {
        ins: 0xDB,
        p1: 0x3F,
        p2: 0xFF,
        body: body.as_slice(),
    };
    card.run(alloc, command)
}

// How many bytes an object that may be read has, with its element and the status word; 2 where it is absent.
fn size_of_answer<S: Store>(card: &mut Card<S>, alloc: Global, tag: u8) -> Result<usize, Fail> {
    let command = Command {
        ins: 0xCB,
        p1: 0x3F,
        p2: 0xFF,
        body: &[0x5C, 0x03, 0x5F, 0xC1, tag],
    };
    let got = card.run(alloc, command)?;
    Ok(got.as_str().len() / 2)
}

#[test]
fn a_put_needs_room(rt: HostRuntime) -> Result<(), Fail> {
    let alloc = rt.alloc();
    // The objects of the small card take three blocks of its five.
    let mut small = card_of(alloc, &small_start(alloc)?, &[])?;
    assert_eq!(rt; put(&mut small, alloc, PRINTED, 256)?.as_str(), "6D00");
    expect(alloc, &mut small, "select template")?;
    assert_eq!(rt; put(&mut small, alloc, PRINTED, 256)?.as_str(), "6982");
    expect(alloc, &mut small, ADMINISTRATOR)?;
    assert_eq!(rt; put(&mut small, alloc, PRINTED, 256)?.as_str(), "6A84");
    let mut plain = plain_card(alloc)?;
    expect(alloc, &mut plain, ADMINISTRATOR)?;
    assert_eq!(rt; put(&mut plain, alloc, PRINTED, 16_385)?.as_str(), "6A84");
    assert_eq!(rt; put(&mut plain, alloc, PRINTED, 16_384)?.as_str(), "9000");
    let rows = "
        login 9000
    ";
    expect(alloc, &mut plain, rows)?;
    let got = plain.send(alloc, spelled("printed"))?;
    assert!(rt; got.as_str().starts_with("53824000A5A5"));
    assert_eq!(rt; plain.out.waiting(), 16_388 - 256);
    Ok(())
}

// The small card has two blocks left, of 64 bytes each: 129 bytes take three, 128 bytes take two.
#[test]
fn the_blocks_that_are_left_can_be_filled_and_no_more(rt: HostRuntime) -> Result<(), Fail> {
    let alloc = rt.alloc();
    let mut card = card_of(alloc, &small_start(alloc)?, &[])?;
    expect(alloc, &mut card, ADMINISTRATOR)?;
    assert_eq!(rt; put(&mut card, alloc, CERTIFICATE, 129)?.as_str(), "6A84");
    // What has no room changes nothing, and leaves the login.
    assert_eq!(rt; size_of_answer(&mut card, alloc, CERTIFICATE)?, 2);
    expect(alloc, &mut card, "chuid 53043E00FE009000")?;
    assert_eq!(rt; put(&mut card, alloc, CERTIFICATE, 128)?.as_str(), "9000");
    assert_eq!(rt; size_of_answer(&mut card, alloc, CERTIFICATE)?, 3 + 128 + 2);
    assert_eq!(rt; put(&mut card, alloc, SECURITY, 1)?.as_str(), "6A84");
    assert_eq!(rt; size_of_answer(&mut card, alloc, SECURITY)?, 2);
    assert_eq!(rt; size_of_answer(&mut card, alloc, CERTIFICATE)?, 3 + 128 + 2);
    expect(
        alloc,
        &mut card,
        "login 9000\nprinted information\nchuid 53043E00FE009000",
    )
}

// The Discovery Object alone takes one block; it stays.
#[test]
fn a_removed_object_makes_room(rt: HostRuntime) -> Result<(), Fail> {
    let alloc = rt.alloc();
    let mut card = card_of(alloc, &small_start(alloc)?, &[])?;
    expect(alloc, &mut card, ADMINISTRATOR)?;
    assert_eq!(rt; put(&mut card, alloc, CERTIFICATE, 128)?.as_str(), "9000");
    assert_eq!(rt; put(&mut card, alloc, SECURITY, 65)?.as_str(), "6A84");
    // One that is absent makes none.
    assert_eq!(rt; put(&mut card, alloc, SECURITY, 0)?.as_str(), "9000");
    assert_eq!(rt; put(&mut card, alloc, SECURITY, 65)?.as_str(), "6A84");
    // One block is made, and two are made.
    assert_eq!(rt; put(&mut card, alloc, PRINTED, 0)?.as_str(), "9000");
    assert_eq!(rt; put(&mut card, alloc, SECURITY, 65)?.as_str(), "6A84");
    assert_eq!(rt; put(&mut card, alloc, CHUID, 0)?.as_str(), "9000");
    assert_eq!(rt; put(&mut card, alloc, SECURITY, 129)?.as_str(), "6A84");
    assert_eq!(rt; size_of_answer(&mut card, alloc, SECURITY)?, 2);
    assert_eq!(rt; put(&mut card, alloc, SECURITY, 128)?.as_str(), "9000");
    assert_eq!(rt; size_of_answer(&mut card, alloc, SECURITY)?, 3 + 128 + 2);
    // The card is full, of two objects of two blocks; one of three fits in the place of one of them with one block more.
    assert_eq!(rt; put(&mut card, alloc, CHUID, 1)?.as_str(), "6A84");
    assert_eq!(rt; put(&mut card, alloc, CERTIFICATE, 0)?.as_str(), "9000");
    assert_eq!(rt; put(&mut card, alloc, CERTIFICATE, 129)?.as_str(), "6A84");
    assert_eq!(rt; put(&mut card, alloc, SECURITY, 0)?.as_str(), "9000");
    assert_eq!(rt; put(&mut card, alloc, CERTIFICATE, 129)?.as_str(), "9000");
    assert_eq!(rt; put(&mut card, alloc, SECURITY, 65)?.as_str(), "6A84");
    assert_eq!(rt; put(&mut card, alloc, SECURITY, 64)?.as_str(), "9000");
    assert_eq!(rt; size_of_answer(&mut card, alloc, CERTIFICATE)?, 3 + 129 + 2);
    assert_eq!(rt; size_of_answer(&mut card, alloc, SECURITY)?, 2 + 64 + 2);
    expect(alloc, &mut card, "chuid 6A82\nlogin 9000\nprinted 6A82")
}

#[test]
fn a_value_counts_beside_the_one_that_it_replaces(rt: HostRuntime) -> Result<(), Fail> {
    let alloc = rt.alloc();
    let mut card = card_of(alloc, &small_start(alloc)?, &[])?;
    expect(alloc, &mut card, ADMINISTRATOR)?;
    assert_eq!(rt; put(&mut card, alloc, PRINTED, 129)?.as_str(), "6A84");
    expect(alloc, &mut card, "login 9000\nprinted information")?;
    assert_eq!(rt; put(&mut card, alloc, PRINTED, 128)?.as_str(), "9000");
    assert_eq!(rt; size_of_answer(&mut card, alloc, PRINTED)?, 3 + 128 + 2);
    // Four blocks are used: two of them by this object.
    assert_eq!(rt; put(&mut card, alloc, PRINTED, 65)?.as_str(), "6A84");
    assert_eq!(rt; size_of_answer(&mut card, alloc, PRINTED)?, 3 + 128 + 2);
    assert_eq!(rt; put(&mut card, alloc, PRINTED, 64)?.as_str(), "9000");
    assert_eq!(rt; size_of_answer(&mut card, alloc, PRINTED)?, 2 + 64 + 2);
    // Three again, and then all five: no value fits beside the old ones, and removing one needs no room.
    assert_eq!(rt; put(&mut card, alloc, CERTIFICATE, 128)?.as_str(), "9000");
    assert_eq!(rt; put(&mut card, alloc, CERTIFICATE, 128)?.as_str(), "6A84");
    assert_eq!(rt; put(&mut card, alloc, CERTIFICATE, 1)?.as_str(), "6A84");
    assert_eq!(rt; size_of_answer(&mut card, alloc, CERTIFICATE)?, 3 + 128 + 2);
    assert_eq!(rt; put(&mut card, alloc, CERTIFICATE, 0)?.as_str(), "9000");
    assert_eq!(rt; size_of_answer(&mut card, alloc, CERTIFICATE)?, 2);
    assert_eq!(rt; put(&mut card, alloc, CERTIFICATE, 1)?.as_str(), "9000");
    assert_eq!(rt; size_of_answer(&mut card, alloc, CERTIFICATE)?, 2 + 1 + 2);
    Ok(())
}

// A put without room makes no write, so the loss comes in the put behind it: four writes of a value of two blocks.
fn lost_behind(
    alloc: Global,
    write: u64,
    how: Leaves,
    said: &str,
    size: usize,
) -> Result<(), Fail> {
    let write = write.max(1);
    let mut card = card_of(alloc, &small_start(alloc)?, &[Loss { write, how }])?;
    expect(alloc, &mut card, ADMINISTRATOR)?;
    let refused = put(&mut card, alloc, CERTIFICATE, 129)?;
    let is_refused = refused.as_str() == "6A84";
    is_refused.then_some(()).ok_or("a put has room")?;
    let lost = put(&mut card, alloc, CERTIFICATE, 128)?;
    let is_said = lost.as_str() == said;
    is_said.then_some(()).ok_or("another word is said")?;
    expect(alloc, &mut card, "select template")?;
    let is_left = size_of_answer(&mut card, alloc, CERTIFICATE)? == size;
    is_left.then_some(()).ok_or("another value is left")?;
    Ok(expect(alloc, &mut card, "chuid 53043E00FE009000")?)
}

#[test]
fn a_put_without_room_makes_no_write(rt: HostRuntime) -> Result<(), Fail> {
    let alloc = rt.alloc();
    lost_behind(alloc, 1, Leaves::Old, "Nothing", 2)?;
    lost_behind(alloc, 1, Leaves::New, "Done", 3 + 128 + 2)?;
    lost_behind(alloc, 4, Leaves::Old, "Nothing", 2)?;
    lost_behind(alloc, 4, Leaves::New, "Done", 3 + 128 + 2)?;
    lost_behind(alloc, 5, Leaves::Old, "9000", 3 + 128 + 2)
}
