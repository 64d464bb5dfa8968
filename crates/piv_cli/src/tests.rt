use crate::devices::blank_devices;
use crate::program::{HELP, VERSION, plain};
use crate::status::Status;
use crate::words::{Request, Words};
use piv_model::{Limit, Where};
use piv_ports::{MemSink, MemSource};
use std::alloc::Global;
use std::test::Fail;

const SELECT: &str = "00A404000BA00000030800001000010000\n";

const TEMPLATE: &str = "61114F0600001000010079074F05A0000003089000\n";

// What the program ends with and writes, where these reads fail and the sink has this room.
fn run(
    alloc: Global,
    words: &[&str],
    input: &[u8],
    reads: &[u64],
    room: usize,
) -> Result<(Status, Vec<u8>), Fail> {
    let mut given = Words::new(alloc);
    for word in words {
        given.push(word)?;
    }
    let mut source = MemSource::new(input.to_vec(alloc)?, reads.to_vec(alloc)?);
    let mut sink = MemSink::new(alloc, room, 7, Vec::new(alloc))?;
    let mut devices = blank_devices(alloc)?;
    let status = plain(alloc, &given, &mut source, &mut sink, &mut devices);
    Ok((status, sink.taken().to_vec(alloc)?))
}

#[test]
fn answers_each_line_of_an_input(rt: HostRuntime) -> Result<(), Fail> {
    let cases: [(&str, &str); 12] = [
        ("", ""),
        ("0G\n", "?\n"),
        ("00CB3FFF055C035FC10200", "6D00\n"),
        (
            "\n \t\r\n00 A4 04 00 0b\ta000000308000010000100 00\r\n\n",
            TEMPLATE,
        ),
        ("00a404000ba00000030800001000010000", TEMPLATE),
        ("0\n00A\r\r\n", "?\n?\n"),
        (
            "00A404000BA00000030800001000010000\n00CB3FFF055C035FC10200\n00CB3FFF035C017E00\n00CB3FFF055C035FC10700\n00CB3FFF055C035FC12200\n",
            "61114F0600001000010079074F05A0000003089000\n53043E00FE009000\n7E124F0BA0000003080000100001005F2F0240009000\n6A82\n6A82\n",
        ),
        (
            "00A404000BA00000030800001000010000\n00CB3FFF055C035FC10900\n",
            "61114F0600001000010079074F05A0000003089000\n6982\n",
        ),
        (
            "00A404000BA00000030800001000010000\n0047009A05AC03800107\n00CB3FFE055C035FC10200\n00CB3FFF025C0000\n",
            "61114F0600001000010079074F05A0000003089000\n6D00\n6A86\n6A80\n",
        ),
        (
            "00A4040009A0000003080000100000\n00A4040005A000000001\n00CB3FFF055C035FC102\n00A4040005F049444C45\n00CB3FFF055C035FC102\n00A4000005A000000001\n",
            "61114F0600001000010079074F05A0000003089000\n6A82\n53043E00FE009000\n9000\n6D00\n6A86\n",
        ),
        (
            "00A404000BA00000030800001000010000\n00CB3FFF065C81035FC10200\n00CB3FFF075C8200035FC10200\n",
            "61114F0600001000010079074F05A0000003089000\n53043E00FE009000\n53043E00FE009000\n",
        ),
        (
            "00CB3F\n00A404000000010203\n80CA9F7F00\n",
            "6700\n6700\n6E00\n",
        ),
    ];
    for (input, output) in cases {
        let (status, written) = run(rt.alloc(), &["apdu"], input.as_bytes(), &[], 1000)?;
        assert_eq!(rt; status, Status::Done);
        assert_eq!(rt; written.as_slice(), output.as_bytes(), "{input}");
    }
    Ok(())
}

#[test]
fn an_end_that_fails_is_told(rt: HostRuntime) -> Result<(), Fail> {
    let alloc = rt.alloc();
    let (status, written) = run(alloc, &["apdu"], SELECT.as_bytes(), &[2], 1000)?;
    assert_eq!(rt; status, Status::ReadFault);
    assert_eq!(rt; written.len(), 0);
    let (status, written) = run(alloc, &["apdu"], SELECT.as_bytes(), &[], 10)?;
    assert_eq!(rt; status, Status::WriteFault);
    assert_eq!(rt; written.as_slice(), b"61114F0600".as_slice());
    Ok(())
}

#[test]
fn words_are_a_command_with_its_numbers(rt: HostRuntime) -> Result<(), Fail> {
    let alloc = rt.alloc();
    let most = u64::MAX;
    let cases: [(&[&str], Option<Request>); 14] = [
        (&["apdu"], Some(Request::Apdu)),
        (&["bench"], Some(Request::Bench)),
        (&["run"], Some(Request::Run)),
        (&["make", "1", "0"], Some(Request::Make { n: 1, number: 0 })),
        (
            &["make", "4000", "18446744073709551615"],
            Some(Request::Make {
                n: 4000,
                number: most,
            }),
        ),
        (&["make", "0", "0"], None),
        (&["make", "4001", "0"], None),
        (&["make", "01", "0"], None),
        (&["make", "+1", "0"], None),
        (&["make", "1", "18446744073709551616"], None),
        (&["make", "1", "-1"], None),
        (&["make", "1", ""], None),
        (&["make", "1"], None),
        (&["bench", "1", "0"], None),
    ];
    for (words, wanted) in cases {
        let mut given = Words::new(alloc);
        for word in words {
            given.push(word)?;
        }
        assert_eq!(rt; given.request(), wanted);
    }
    Ok(())
}

#[test]
fn a_hint_says_where(rt: HostRuntime) -> Result<(), Fail> {
    let cases = [
        (Where::NotToml, "the bytes are no TOML"),
        (Where::Cards, "cards"),
        (Where::Card(0), "card 0"),
        (Where::Script(1), "script 1"),
        (Where::Line(1, 3), "script 1, line 3"),
        (Where::Schedule, "schedule"),
    ];
    for (at, text) in cases {
        let Some(hint) = (Status::BadScene { at }).hint() else {
            return Err(Fail::from("no hint"));
        };
        assert_eq!(rt; format!(in rt.alloc(); "{hint}")?.as_str(), text);
    }
    Ok(())
}

// Without threads `run` is none.
#[test]
fn words_that_are_no_command_are_refused(rt: HostRuntime) -> Result<(), Fail> {
    let alloc = rt.alloc();
    for words in [
        ["fly"].as_slice(),
        &[],
        &["apdu", "apdu"],
        &["--help", "apdu"],
        &["APDU"],
        &["run"],
    ] {
        let (status, written) = run(alloc, words, SELECT.as_bytes(), &[], 1000)?;
        assert_eq!(rt; status, Status::Usage);
        assert_eq!(rt; written.len(), 0);
    }
    let (status, written) = run(alloc, &["--help"], &[], &[1], 1000)?;
    assert_eq!(rt; status, Status::Done);
    assert_eq!(rt; written.as_slice(), HELP.as_bytes());
    let (status, written) = run(alloc, &["--version"], &[], &[1], 1000)?;
    assert_eq!(rt; status, Status::Done);
    assert_eq!(rt; written.as_slice(), VERSION.as_bytes());
    Ok(())
}

#[test]
fn an_input_of_one_byte_too_many_is_too_large(rt: HostRuntime) -> Result<(), Fail> {
    let alloc = rt.alloc();
    for (size, end) in [
        (8_388_608, Status::Done),
        (8_388_609, Status::TooLarge { what: Limit::Input }),
    ] {
        let input = vec![in alloc; b' '; size]?;
        let (status, written) = run(alloc, &["apdu"], &input, &[], 1000)?;
        assert_eq!(rt; status, end);
        assert_eq!(rt; written.len(), 0);
    }
    Ok(())
}

// Its own room is made first: what then wants memory is the program.
#[test]
fn want_of_memory_writes_nothing(rt: HostRuntime) -> Result<(), Fail> {
    let alloc = rt.alloc();
    let mut words = Words::new(alloc);
    words.push("apdu")?;
    let mut source = MemSource::new(SELECT.as_bytes().to_vec(alloc)?, Vec::new(alloc));
    let mut sink = MemSink::new(alloc, 100, 100, Vec::new(alloc))?;
    let mut devices = blank_devices(alloc)?;
    let status = plain(alloc, &words, &mut source, &mut sink, &mut devices);
    match status {
        Status::Done => assert_eq!(rt; sink.taken(), TEMPLATE.as_bytes()),
        _ => {
            assert_eq!(rt; status, Status::NoMemory);
            assert_eq!(rt; sink.taken().len(), 0);
        }
    }
    Ok(())
}
