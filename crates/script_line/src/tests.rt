// Lines that are read, and lines that are not.
ghost use Rattle.std.specs.Prelude.{◌≡◌};

use crate::{Line, Script, read_line};
use line_words::LineFault;
use std::process::Abort;
use std::test::Fail;

// Each line in its shortest form, and with the longest names, identifiers and numbers; bytes have no length limit.
#[rattlefmt::skip]
const READ: [&str; 33] = [
    "connect h r shared",
    "connect abcdefghijklmnopqrstuvwxyz-_0123 ABCDEFGHIJKLMNOPQRSTUVWXYZ456789 exclusive",
    "disconnect h",
    "disconnect abcdefghijklmnopqrstuvwxyz-_0123",
    "select h -",
    "select abcdefghijklmnopqrstuvwxyz-_0123 a000000308000010000100",
    "login h -",
    "login abcdefghijklmnopqrstuvwxyz-_0123 670D8108313233343536FFFF830180",
    "logout h",
    "logout abcdefghijklmnopqrstuvwxyz-_0123",
    "get h 1",
    "get abcdefghijklmnopqrstuvwxyz-_0123 1.1.1.1.1.1.1.1.1.1.1.1.1.1.1.1.1.1.1.1.1.1.1.1.1.1.1.1.1.1.1.1.",
    "put h 1 hex -",
    "put abcdefghijklmnopqrstuvwxyz-_0123 \
     1.1.1.1.1.1.1.1.1.1.1.1.1.1.1.1.1.1.1.1.1.1.1.1.1.1.1.1.1.1.1.1. hex 01024344FE00",
    "put h 1 fill 0 00",
    "put abcdefghijklmnopqrstuvwxyz-_0123 \
     1.1.1.1.1.1.1.1.1.1.1.1.1.1.1.1.1.1.1.1.1.1.1.1.1.1.1.1.1.1.1.1. fill 18446744073709551615 fF",
    "crypt h 00 00 -",
    "crypt abcdefghijklmnopqrstuvwxyz-_0123 08 9e 7C148200811000112233445566778899AABBCCDDEEFF",
    "admin h 08 101112131415161718191A1B1C1D1E1F",
    "admin h 0A 101112131415161718191A1B1C1D1E1F2021222324252627",
    "admin abcdefghijklmnopqrstuvwxyz-_0123 0c \
     101112131415161718191a1b1c1d1e1f202122232425262728292a2b2c2d2e2f",
    "apdu h -",
    "apdu h 00",
    "apdu abcdefghijklmnopqrstuvwxyz-_0123 00CB3FFF055C035FC10200",
    "version",
    "generate",
    "secure",
    "reset r",
    "reset abcdefghijklmnopqrstuvwxyz-_0123",
    "cut c",
    "cut abcdefghijklmnopqrstuvwxyz-_0123",
    "power c",
    "power abcdefghijklmnopqrstuvwxyz-_0123",
];

// One thing is wrong with each.
#[rattlefmt::skip]
const MALFORMED: [&str; 66] = [
    "", " ", "up h", "Version", "version ", " version", "version h", "generate h", "secure h",
    "connect  h r shared", "connect h r shared ", " connect h r shared", "connect h r Shared",
    "connect h r", "connect h r shared x", "connect\th r shared", "connect h r exclusive\n",
    "connect h abcdefghijklmnopqrstuvwxyz-_01234 shared",
    "disconnect", "disconnect ", "disconnect h h", "disconnect h.h", "disconnect \u{E9}",
    "disconnect abcdefghijklmnopqrstuvwxyz-_01234",
    "select h", "select h ", "select h A", "select h AG", "select h A0 A0", "select h --",
    "login h 0", "login h 0x00", "login h ", "logout", "logout h h",
    "get h", "get h ", "get h 1a", "get h 1-1",
    "get h 1.1.1.1.1.1.1.1.1.1.1.1.1.1.1.1.1.1.1.1.1.1.1.1.1.1.1.1.1.1.1.1.1",
    "put h 1 hex", "put h 1 Hex 00", "put h 1 hex 0", "put h 1 hex ", "put h 1 hex 00 00",
    "put h 1 fill 01 5A", "put h 1 fill 18446744073709551616 5A", "put h 1 fill +1 5A",
    "put h 1 fill - 5A", "put h 1 fill 1 5", "put h 1 fill 1 5A5A", "put h 1 fill  5A",
    "crypt h 8 9B 00", "crypt h 08 9B", "crypt h 08 - 00",
    "admin h 08 101112131415161718191A1B1C1D1E1F20", "admin h 08 -",
    "apdu h", "apdu h 000", "reset", "reset r r", "reset r ", "cut", "cut c c", "power", "power  c",
];

#[test]
fn each_line_is_read_in_its_shortest_and_in_its_longest_form(rt: HostRuntime) {
    for text in READ {
        assert!(rt; read_line(rt.alloc(), text).is_ok());
    }
}

#[test]
fn a_line_with_one_thing_wrong_is_malformed(rt: HostRuntime) {
    for text in MALFORMED {
        assert!(rt; matches!(&read_line(rt.alloc(), text), Err(LineFault::Malformed)));
    }
}

#[test]
fn the_words_of_a_line_stand_in_its_fields(rt: HostRuntime) -> Result<(), Fail> {
    let alloc = rt.alloc();
    let connected = read_line(alloc, "connect h front exclusive")?;
    let Line::Connect {
        h,
        reader,
        shared: false,
    } = &connected
    else {
        return Err("connect")?;
    };
    assert!(rt; h.as_str() == "h" && reader.as_str() == "front");
    let put = read_line(alloc, "put h 2.16.840 fill 18446744073709551615 5a")?;
    let Line::PutFill {
        h: _,
        oid,
        size,
        fill,
    } = &put
    else {
        return Err("put")?;
    };
    assert!(rt; oid.as_str() == "2.16.840" && *size == 18_446_744_073_709_551_615 && *fill == 0x5A);
    let crypted = read_line(alloc, "crypt h 08 9B 7c0281")?;
    let Line::Crypt {
        h: _,
        algorithm,
        key,
        input,
    } = &crypted
    else {
        return Err("crypt")?;
    };
    assert!(rt;
        *algorithm == 0x08 && *key == 0x9B && input.as_slice() == b"\x7C\x02\x81".as_slice()
    );
    Ok(())
}

fn shares<T: Sync>(value: &T) -> &T
    ensures { result.now ≡ value.now }
{
    value
}

#[test]
fn a_script_keeps_its_lines_in_order_and_can_be_shared(rt: HostRuntime) -> Result<(), Fail> {
    let alloc = rt.alloc();
    let mut script = Script::new(alloc, "a").or(Err("memory"))?;
    assert_eq!(rt; shares(&script).len(), 0);
    script.push(read_line(alloc, "version")?).or(Err("memory"))?;
    script.push(read_line(alloc, "cut A")?).or(Err("memory"))?;
    let script = shares(&script);
    assert!(rt; script.name() == "a");
    assert_eq!(rt; script.len(), 2);
    assert!(rt; matches!(shares(script.line(0)), Line::Version));
    let Line::Cut { card } = script.line(1) else {
        return Err("cut")?;
    };
    assert!(rt; shares(card).as_str() == "A");
    let bytes = read_line(alloc, "apdu h 00")?;
    let Line::Apdu { h: _, bytes } = &bytes else {
        return Err("apdu")?;
    };
    assert!(rt; shares(bytes).as_slice() == [0].as_slice());
    Ok(())
}
