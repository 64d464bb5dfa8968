use crate::devices::blank_devices;
use crate::program::top;
use crate::status::Status;
use crate::words::Words;
use piv_model::{Limit, Where};
use piv_ports::{MemSink, MemSource};
use std::alloc::Global;
use std::sync::Wait;
use std::test::Fail;
use std::thread::Threads;

const CARD: &str = "
[[card]]
name = 'A'
contact = 'front'
contactless = 'gate'
objects = [
  { tag = '5FC102', value = '3E00FE00' },
  { tag = '5FC109', value = '01024142FE00' },
  { tag = '7E', value = '4F0BA0000003080000100001005F2F024000' },
]
";

const TWO_SCRIPTS: &str = "
[[script]]
name = 'a'
lines = [
  'connect h front shared',
  'select h A000000308000010000100',
  'login h 670D8108313233343536FFFF830180',
  'get h 2.16.840.1.101.3.7.2.48.1',
]

[[script]]
name = 'b'
lines = [
  'connect h front shared',
  'select h A00000030800001000',
  'get h 2.16.840.1.101.3.7.2.48.1',
]
";

const ANSWERS: &str = "\
script a
1 PIV_OK
2 PIV_OK 61114F0600001000010079074F05A000000308
3 PIV_OK
4 PIV_OK 530601024142FE00
script b
1 PIV_OK
2 PIV_OK 61114F0600001000010079074F05A000000308
3 PIV_SECURITY_CONDITIONS_NOT_SATISFIED PIN
card A
";

const IN_TURN: &str = "\
opened 1 contact shared
opened 2 contact shared
call 1 A4 04 00 A000000308000010000100 9000 -
call 2 A4 04 00 A00000030800001000 9000 -
call 1 20 00 80 313233343536FFFF 9000 -
call 2 CB 3F FF 5C035FC109 6982 -
call 1 CB 3F FF 5C035FC109 9000 -
";

// The entries of each script, whose connection is one of two.
const BY_A: &str = "\
opened # contact shared
call # A4 04 00 A000000308000010000100 9000 -
call # 20 00 80 313233343536FFFF 9000 -
call # CB 3F FF 5C035FC109 9000 -
";

const BY_B: &str = "\
opened # contact shared
call # A4 04 00 A00000030800001000 9000 -
call # CB 3F FF 5C035FC109 6982 -
";

// What the program ends with and writes, where these reads fail and the sink has this room.
fn run<R: Threads + Wait + Sync>(
    rt: &R,
    alloc: Global,
    words: &[&str],
    input: &[u8],
    reads: &[u64],
    room: usize,
) -> Result<(Status, Vec<u8>), Fail> {
    let mut given = Words::new(alloc);
    for word in words {
        given.push(word)?;
    }
    let mut source = MemSource::new(input.to_vec(alloc)?, reads.to_vec(alloc)?);
    let mut sink = MemSink::new(alloc, room, 7, Vec::new(alloc))?;
    let mut devices = blank_devices(alloc)?;
    let status = top(rt, alloc, &given, &mut source, &mut sink, &mut devices);
    Ok((status, sink.taken().to_vec(alloc)?))
}

fn scene_of(alloc: Global, parts: &[&str]) -> Result<Vec<u8>, Fail> {
    let mut scene = Vec::new(alloc);
    for part in parts {
        scene.extend_from_slice(part.as_bytes())?;
    }
    Ok(scene)
}

#[test]
fn a_scene_is_run_and_told(rt: HostRuntime) -> Result<(), Fail> {
    let alloc = rt.alloc();
    let scene = scene_of(alloc, &[CARD, TWO_SCRIPTS])?;
    let (status, written) = run(&rt, alloc, &["bench"], &scene, &[], 1000)?;
    assert_eq!(rt; status, Status::Done);
    let history = written.strip_prefix(ANSWERS.as_bytes());
    assert_eq!(rt; history, Some(IN_TURN.as_bytes()));
    Ok(())
}

// The entries of a connection, in their order, without its number.
fn entries_of(alloc: Global, history: &str, connection: &str) -> Result<String, Fail> {
    let mut entries = String::new(alloc);
    for entry in history.lines() {
        if entry.contains(connection) {
            entries.push_str(entry.replacen(alloc, connection, " # ", 1)?.as_str())?;
            entries.push('\n')?;
        }
    }
    Ok(entries)
}

// The script whose connect comes first has connection 1.
#[test]
fn threads_choose_the_order_of_the_entries_alone(rt: HostRuntime) -> Result<(), Fail> {
    let alloc = rt.alloc();
    let scene = scene_of(alloc, &[CARD, TWO_SCRIPTS])?;
    let (status, written) = run(&rt, alloc, &["run"], &scene, &[], 1000)?;
    assert_eq!(rt; status, Status::Done);
    let text = str::from_utf8(&written).or(Err("no text"))?;
    let history = text.strip_prefix(ANSWERS).ok_or("other answers")?;
    assert!(rt; history.starts_with("opened 1 "), "{history}");
    assert_eq!(rt; history.lines().count(), 7, "{history}");
    let first = entries_of(alloc, history, " 1 ")?;
    let second = entries_of(alloc, history, " 2 ")?;
    let a_before_b = first.as_str() == BY_A && second.as_str() == BY_B;
    let b_before_a = first.as_str() == BY_B && second.as_str() == BY_A;
    assert!(rt; a_before_b || b_before_a, "{history}");
    Ok(())
}

#[test]
fn a_sink_that_fails_has_a_prefix_of_the_run(rt: HostRuntime) -> Result<(), Fail> {
    let alloc = rt.alloc();
    let scene = scene_of(alloc, &[CARD, TWO_SCRIPTS])?;
    for word in ["bench", "run"] {
        let (status, written) = run(&rt, alloc, &[word], &scene, &[], 12)?;
        assert_eq!(rt; status, Status::WriteFault);
        assert_eq!(rt; written.as_slice(), b"script a\n1 P".as_slice());
    }
    let (status, written) = run(&rt, alloc, &["make", "1", "7"], &[], &[1], 5)?;
    assert_eq!(rt; status, Status::WriteFault);
    assert_eq!(rt; written.as_slice(), b"lines".as_slice());
    Ok(())
}

#[test]
fn an_input_that_is_no_scene_is_refused(rt: HostRuntime) -> Result<(), Fail> {
    let alloc = rt.alloc();
    let script = "[[script]]\nname = 'a'\nlines = ['cut A', 'cut B']\n";
    let limit = Status::TooLarge {
        what: Limit::LimitPin,
    };
    let cases: [(&[&str], Status); 8] = [
        (&["[[card"], Status::BadScene { at: Where::NotToml }),
        (&[""], Status::BadScene { at: Where::Cards }),
        (
            &["[[card]]\nname = 'A'\n"],
            Status::BadScene { at: Where::Card(0) },
        ),
        (
            &[CARD, "[[script]]\nname = ''\n"],
            Status::BadScene {
                at: Where::Script(0),
            },
        ),
        (
            &[CARD, script],
            Status::BadScene {
                at: Where::Line(0, 2),
            },
        ),
        (
            &["schedule = [0]\n", CARD],
            Status::BadScene {
                at: Where::Schedule,
            },
        ),
        (&[CARD, "limit_pin = 16\n"], limit),
        (&[CARD], Status::Done),
    ];
    for (parts, end) in cases {
        let scene = scene_of(alloc, parts)?;
        let told = if end == Status::Done { "card A\n" } else { "" };
        for word in ["bench", "run"] {
            let (status, written) = run(&rt, alloc, &[word], &scene, &[], 1000)?;
            assert_eq!(rt; status, end);
            assert_eq!(rt; written.as_slice(), told.as_bytes());
        }
    }
    let input = vec![in alloc; b' '; 8_388_609]?;
    let (status, _) = run(&rt, alloc, &["bench"], &input, &[], 1000)?;
    assert_eq!(rt; status, Status::TooLarge { what: Limit::Input });
    let (status, _) = run(&rt, alloc, &["bench"], CARD.as_bytes(), &[1], 1000)?;
    assert_eq!(rt; status, Status::ReadFault);
    Ok(())
}

// The numbers are those of a simulator that was written apart from this program.
#[test]
fn a_made_scene_is_summed_up(rt: HostRuntime) -> Result<(), Fail> {
    let alloc = rt.alloc();
    for _ in 0..2 {
        let (status, written) = run(&rt, alloc, &["make", "100", "7"], &[], &[1], 1000)?;
        assert_eq!(rt; status, Status::Done);
        assert_eq!(rt;
            written.as_slice(),
            b"lines 108\nentries 164\ncalls 131\ngranted 90\nrefused 41\n".as_slice()
        );
    }
    Ok(())
}
