use crate::devices::blank_devices;
use crate::program::top;
use crate::status::Status;
use crate::words::Words;
use piv_ports::{MemSink, MemSource};
use std::alloc::Global;
use std::sync::Wait;
use std::test::Fail;
use std::thread::Threads;

const DIGITS: [u8; 16] = *b"0123456789ABCDEF";

// What a command writes for an input.
fn answer<R: Threads + Wait + Sync>(
    rt: &R,
    alloc: Global,
    word: &str,
    input: Vec<u8>,
) -> Result<Vec<u8>, Fail> {
    let mut words = Words::new(alloc);
    words.push(word)?;
    let mut source = MemSource::new(input, Vec::new(alloc));
    let mut sink = MemSink::new(alloc, 1_000_000, 1_000_000, Vec::new(alloc))?;
    let mut devices = blank_devices(alloc)?;
    match top(rt, alloc, &words, &mut source, &mut sink, &mut devices) {
        Status::Done => Ok(sink.taken().to_vec(alloc)?),
        _ => Err(Fail::from("not done")),
    }
}

fn add_times(text: &mut Vec<u8>, count: usize, what: &[u8]) -> Result<(), Fail> {
    for _ in 0..count {
        text.extend_from_slice(what)?;
    }
    Ok(())
}

fn add_byte(text: &mut Vec<u8>, byte: u8) -> Result<(), Fail> {
    text.push(DIGITS[(byte / 16) as usize])?;
    text.push(DIGITS[(byte % 16) as usize])?;
    Ok(())
}

// 65 parts are 16,575 bytes, and one more would be more than 16,640.
#[test]
fn a_chain_of_more_than_16640_bytes_is_refused(rt: HostRuntime) -> Result<(), Fail> {
    let alloc = rt.alloc();
    let mut input = Vec::new(alloc);
    let mut want = Vec::new(alloc);
    for _ in 0..66 {
        input.extend_from_slice(b"10DB3FFFFF")?;
        add_times(&mut input, 255, b"A5")?;
        input.push(b'\n')?;
    }
    add_times(&mut want, 65, b"9000\n")?;
    want.extend_from_slice(b"6700\n")?;
    assert_eq!(rt;
        answer(&rt, alloc, "apdu", input)?.as_slice(),
        want.as_slice()
    );
    Ok(())
}

// The response is that of the plain card to its first block.
#[test]
fn an_object_of_16384_bytes_is_put_in_65_parts_and_read_in_65_pieces(
    rt: HostRuntime,
) -> Result<(), Fail> {
    let alloc = rt.alloc();
    let mut input = Vec::new(alloc);
    input.extend_from_slice(
        b"00A404000BA000000308000010000100\n0087089B047C02810000\n0087089B147C12821042155C90AB20DCE01EB4F8787E51B59A\n10DB3FFFFF5C035FC10253824000",
    )?;
    add_times(&mut input, 246, b"A5")?;
    for _ in 0..63 {
        input.extend_from_slice(b"\n10DB3FFFFF")?;
        add_times(&mut input, 255, b"A5")?;
    }
    input.extend_from_slice(b"\n00DB3FFF49")?;
    add_times(&mut input, 73, b"A5")?;
    input.extend_from_slice(b"\n00CB3FFF055C035FC10200\n")?;
    add_times(&mut input, 64, b"00C0000000\n")?;
    let mut want = Vec::new(alloc);
    want.extend_from_slice(
        b"61114F0600001000010079074F05A0000003089000\n7C12811076B8E0ADA0F13D90405D6AE55386BD289000\n",
    )?;
    add_times(&mut want, 66, b"9000\n")?;
    want.extend_from_slice(b"53824000")?;
    add_times(&mut want, 252, b"A5")?;
    for _ in 0..62 {
        want.extend_from_slice(b"6100\n")?;
        add_times(&mut want, 256, b"A5")?;
    }
    want.extend_from_slice(b"6100\n")?;
    add_times(&mut want, 256, b"A5")?;
    want.extend_from_slice(b"6104\nA5A5A5A59000\n")?;
    assert_eq!(rt;
        answer(&rt, alloc, "apdu", input)?.as_slice(),
        want.as_slice()
    );
    Ok(())
}

// Every class, each with a SELECT of no name.
fn by_class(class: u8) -> &'static [u8] {
    match class {
        0x00 => b"6A82\n",
        0x01..=0x03 | 0x11..=0x13 => b"6881\n",
        0x0C | 0x1C => b"6882\n",
        0x10 => b"9000\n",
        _ => b"6E00\n",
    }
}

// Every instruction under PIV, with P1 and P2 of 00.
fn by_instruction(instruction: u8) -> &'static [u8] {
    match instruction {
        0x20 | 0x24 | 0x2C => b"6A88\n",
        0x87 | 0xA4 | 0xCB | 0xDB => b"6A86\n",
        0xC0 => b"6985\n",
        _ => b"6D00\n",
    }
}

#[test]
fn each_class_and_instruction_has_its_answer(rt: HostRuntime) -> Result<(), Fail> {
    let alloc = rt.alloc();
    let mut input = Vec::new(alloc);
    let mut want = Vec::new(alloc);
    for class in 0..=255 {
        add_byte(&mut input, class)?;
        input.extend_from_slice(b"A4040000\n")?;
        want.extend_from_slice(by_class(class))?;
    }
    input.extend_from_slice(b"00A404000BA000000308000010000100\n")?;
    want.extend_from_slice(b"61114F0600001000010079074F05A0000003089000\n")?;
    for instruction in 0..=255 {
        input.extend_from_slice(b"00")?;
        add_byte(&mut input, instruction)?;
        input.extend_from_slice(b"000000\n")?;
        want.extend_from_slice(by_instruction(instruction))?;
    }
    assert_eq!(rt;
        answer(&rt, alloc, "apdu", input)?.as_slice(),
        want.as_slice()
    );
    Ok(())
}

// One line of 1 MiB, and a chain of 100,000 parts that nobody ends.
#[test]
fn long_inputs_are_answered_line_by_line(rt: HostRuntime) -> Result<(), Fail> {
    let alloc = rt.alloc();
    let mut input = vec![in alloc; b'0'; 1_048_576]?;
    input.push(b'\n')?;
    add_times(&mut input, 100_000, b"10CB3FFF\n")?;
    let mut want = Vec::new(alloc);
    want.extend_from_slice(b"6700\n")?;
    add_times(&mut want, 100_000, b"9000\n")?;
    assert_eq!(rt;
        answer(&rt, alloc, "apdu", input)?.as_slice(),
        want.as_slice()
    );
    Ok(())
}

// A card of a real size: 415 blocks of objects.
const THREE_ROLES: &str = "
[[card]]
name = 'A'
contact = 'front'
contactless = 'gate'
objects = [
  { tag = '5FC102', size = 2900, fill = '30' },
  { tag = '5FC108', size = 12000, fill = 'C3' },
  { tag = '5FC103', size = 4000, fill = 'B7' },
  { tag = '5FC105', size = 1800, fill = 'A1' },
  { tag = '5FC10A', size = 1800, fill = 'A2' },
  { tag = '5FC10B', size = 1800, fill = 'A3' },
  { tag = '5FC101', size = 1800, fill = 'A4' },
  { tag = '5FC109', value = '01024142FE00' },
  { tag = '7E', value = '4F0BA0000003080000100001005F2F024000' },
]

[[script]]
name = 'door'
lines = [
  'connect h gate shared',
  'select h A000000308000010000100',
  'get h 2.16.840.1.101.3.7.2.48.0',
  'get h 2.16.840.1.101.3.7.2.5.0',
  'crypt h 08 9E 7C148200811000112233445566778899AABBCCDDEEFF',
]

[[script]]
name = 'desk'
lines = [
  'connect h front shared',
  'select h A000000308000010000100',
  'login h 670D8108313233343536FFFF830180',
  'get h 2.16.840.1.101.3.7.2.96.48',
  'get h 2.16.840.1.101.3.7.2.96.16',
  'get h 2.16.840.1.101.3.7.2.1.1',
]

[[script]]
name = 'issuer'
lines = [
  'connect h front shared',
  'select h A000000308000010000100',
  'admin h 08 101112131415161718191A1B1C1D1E1F',
  'put h 2.16.840.1.101.3.7.2.48.1 hex 01024344FE00',
  'disconnect h',
]
";

// A line `number` that answers with an object: its header and so many times a byte.
fn add_object(
    text: &mut Vec<u8>,
    number: &[u8],
    header: &[u8],
    count: usize,
    byte: &[u8],
) -> Result<(), Fail> {
    text.extend_from_slice(number)?;
    text.extend_from_slice(b" PIV_OK ")?;
    text.extend_from_slice(header)?;
    add_times(text, count, byte)?;
    text.push(b'\n')?;
    Ok(())
}

// What comes before the history: 2,904, 1,804, 12,004, 4,004 and 1,804 bytes are got.
fn add_three_roles(text: &mut Vec<u8>) -> Result<(), Fail> {
    let begun = b"1 PIV_OK\n2 PIV_OK 61114F0600001000010079074F05A000000308\n";
    text.extend_from_slice(b"script door\n")?;
    text.extend_from_slice(begun)?;
    add_object(text, b"3", b"53820B54", 2900, b"30")?;
    add_object(text, b"4", b"53820708", 1800, b"A4")?;
    text.extend_from_slice(b"5 PIV_OK 7C12821069C4E0D86A7B0430D8CDB78070B4C55A\nscript desk\n")?;
    text.extend_from_slice(begun)?;
    text.extend_from_slice(b"3 PIV_OK\n")?;
    add_object(text, b"4", b"53822EE0", 12000, b"C3")?;
    add_object(text, b"5", b"53820FA0", 4000, b"B7")?;
    add_object(text, b"6", b"53820708", 1800, b"A1")?;
    text.extend_from_slice(b"script issuer\n")?;
    text.extend_from_slice(begun)?;
    text.extend_from_slice(b"3 PIV_OK\n4 PIV_OK\n5 PIV_OK\ncard A\n")?;
    Ok(())
}

// 23 entries are the door's, 74 the desk's and 6 the issuer's, whatever numbers their connections have.
#[test]
fn a_door_a_desk_and_an_issuer_use_one_card(rt: HostRuntime) -> Result<(), Fail> {
    let alloc = rt.alloc();
    let mut want = Vec::new(alloc);
    add_three_roles(&mut want)?;
    for word in ["bench", "run"] {
        let scene = THREE_ROLES.as_bytes().to_vec(alloc)?;
        let written = answer(&rt, alloc, word, scene)?;
        let history = written
            .strip_prefix(want.as_slice())
            .ok_or("other answers")?;
        let history = str::from_utf8(history).or(Err("no text"))?;
        let mut counts = Vec::new(alloc);
        for connection in ["1", "2", "3"] {
            let of_it = |entry: &&str| entry.split(' ').nth(1) == Some(connection);
            counts.push(history.lines().filter(of_it).count())?;
        }
        counts.sort()?;
        assert_eq!(rt; counts.as_slice(), [6, 23, 74].as_slice(), "{word}");
        assert_eq!(rt; history.lines().count(), 103);
    }
    Ok(())
}
