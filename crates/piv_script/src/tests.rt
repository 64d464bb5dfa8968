// A history read back, and lines that no entry prints.
use crate::{LineFault, print_history, push_line, read_history};
use piv_model::{Entry, History};
use piv_ports::MemSink;
use std::process::Abort;
use std::test::Fail;

// Two connections of which one logs in; only it reads the printed information.
const LOGIN_OF_ONE: &str = "opened 1 contact shared
opened 2 contact shared
call 1 A4 04 00 A000000308000010000100 9000 -
call 2 A4 04 00 A00000030800001000 9000 -
call 1 20 00 80 313233343536FFFF 9000 -
call 2 CB 3F FF 5C035FC109 6982 -
call 1 CB 3F FF 5C035FC109 9000 -
";

const EACH_ENTRY: &str = "opened 0 contactless exclusive
closed 4294967295
call 1 87 08 9B 7C028100 9000 76B8E0ADA0F13D90405D6AE55386BD28
call 1 20 00 80 - 63C2 -
part 1
rest 1
bad 1 6700
reset contact
reset contactless
cut
cut 1 20 00 80 393939393939FFFF
cut 1 20 00 80 -
up nothing
up spent
up done
note connect contact locked
note connect contactless nochannel
note disconnect 4294967295 noconnection
note exchange 1 stale
note exchange 1 mute
note reset contact off
note cut off
note power on
";

#[rattlefmt::skip]
const MALFORMED: [&str; 45] = [
    "", " ", "call 1 A4", "Opened 1 contact shared", "opened 1 contact", "opened 1 contact shared x",
    "opened 1 Contact shared", "opened 01 contact shared", "opened 4294967296 contact shared",
    "opened  1 contact shared", "opened 1 contact shared ", "closed", "closed 1 1", "closed -1",
    "closed +1", "part", "part 1\n", "rest x", "bad 1 6a80", "bad 1 6A8", "bad 1 -", "bad 6A80",
    "call 1 a4 04 00 - 9000 -", "call 1 A4 04 00 5c 9000 -", "call 1 A4 04 00  9000 -",
    "call 1 A4 04 00 - 9000", "call 1 A4 04 00 - 9000 - -", "call 1 A4 04 - 9000 -",
    "call 1 87 08 9B - 9000 76B8E0ADA0F13D90405D6AE55386BD",
    "call 1 87 08 9B - 9000 76b8e0ada0f13d90405d6ae55386bd28",
    "reset", "reset front", "reset contact contact", "cut 1", "cut 1 20 00 80", "cut A",
    "up", "up locked", "up done done", "note power", "note power done", "note cut 1 off",
    "note exchange stale", "note exchange 1 1 stale", "note up on",
];

fn is_printed_so(rt: &impl Abort, h: &History, sink: &mut MemSink, text: &str) {
    assert!(rt; print_history(h, sink) == Ok(()));
    assert!(rt; sink.taken() == text.as_bytes());
}

#[test]
fn seven_lines_are_read_and_printed_again(rt: HostRuntime) -> Result<(), Fail> {
    let alloc = rt.alloc();
    let h = read_history(alloc, LOGIN_OF_ONE)?;
    assert_eq!(rt; h.len(), 7);
    let mut sink = MemSink::new(alloc, 1000, 7, Vec::new(alloc)).or(Err("memory"))?;
    is_printed_so(&rt, &h, &mut sink, LOGIN_OF_ONE);
    Ok(())
}

#[test]
fn each_kind_of_entry_is_read_and_printed_again(rt: HostRuntime) -> Result<(), Fail> {
    let alloc = rt.alloc();
    let h = read_history(alloc, EACH_ENTRY)?;
    assert_eq!(rt; h.len(), 23);
    assert!(rt; matches!(&h.entry(6), Entry::Bad { c: 1, sw: 0x6700 }));
    let mut sink = MemSink::new(alloc, 2000, 2000, Vec::new(alloc)).or(Err("memory"))?;
    is_printed_so(&rt, &h, &mut sink, EACH_ENTRY);
    assert_eq!(rt; read_history(alloc, "")?.len(), 0);
    Ok(())
}

#[test]
fn a_line_that_no_entry_prints_adds_nothing(rt: HostRuntime) -> Result<(), Fail> {
    let alloc = rt.alloc();
    let mut h = read_history(alloc, "part 1\n")?;
    for line in MALFORMED {
        assert!(rt; push_line(alloc, &mut h, line) == Err(LineFault::Malformed));
        assert_eq!(rt; h.len(), 1);
    }
    assert!(rt; push_line(alloc, &mut h, "rest 1") == Ok(()));
    assert_eq!(rt; h.len(), 2);
    Ok(())
}

#[test]
fn a_history_whose_last_line_is_not_ended_is_malformed(rt: HostRuntime) {
    let alloc = rt.alloc();
    assert!(rt; matches!(&read_history(alloc, "part 1"), Err(LineFault::Malformed)));
    assert!(rt;
        matches!(
            &read_history(alloc, "part 1\n\n"),
            Err(LineFault::Malformed)
        )
    );
    assert!(rt;
        matches!(
            &read_history(alloc, "part 1\r\n"),
            Err(LineFault::Malformed)
        )
    );
    assert!(rt;
        matches!(
            &read_history(alloc, "part 1\nx\npart 1\n"),
            Err(LineFault::Malformed)
        )
    );
}
