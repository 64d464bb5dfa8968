// The whole text of a run, and a summary.
use crate::{print_run, print_summary};
use piv_model::{ApiAnswer, Body, Command, Entry, History, Interface, Rule};
use piv_ports::MemSink;
use piv_scene::read_scene;
use std::alloc::Global;
use std::test::Fail;

const SCENE: &[u8] = b"
[[card]]
name = \"A\"
contact = \"front\"
contactless = \"gate\"

[[script]]
name = \"a\"
lines = [
    \"connect h front shared\",
    \"select h A000000308000010000100\",
    \"login h 670D8108313233343536FFFF830180\",
    \"get h 2.16.840.1.101.3.7.2.48.1\",
]

[[script]]
name = \"b\"
lines = [
    \"connect h front shared\",
    \"select h A00000030800001000\",
    \"get h 2.16.840.1.101.3.7.2.48.1\",
]
";

const TEXT: &str = "script a
1 PIV_OK
2 PIV_OK 61114F0600001000010079074F05A000000308
3 PIV_OK
4 PIV_OK 530601024142FE00
script b
1 PIV_OK
2 PIV_OK 61114F0600001000010079074F05A000000308
3 PIV_SECURITY_CONDITIONS_NOT_SATISFIED PIN
card A
opened 1 contact shared
opened 2 contact shared
call 1 A4 04 00 A000000308000010000100 9000 -
call 2 A4 04 00 A00000030800001000 9000 -
call 1 20 00 80 313233343536FFFF 9000 -
call 2 CB 3F FF 5C035FC109 6982 -
call 1 CB 3F FF 5C035FC109 9000 -
";

const SUMMARY: &str = "lines 7
entries 7
calls 5
granted 4
refused 1
";

const APPLICATION: [u8; 11] = [0xA0, 0, 0, 3, 8, 0, 0, 0x10, 0, 1, 0];

const TEMPLATE: [u8; 19] = [
    0x61, 0x11, 0x4F, 6, 0, 0, 0x10, 0, 1, 0, 0x79, 7, 0x4F, 5, 0xA0, 0, 0, 3, 8,
];

const PRINTED: [u8; 8] = [0x53, 6, 1, 2, 0x41, 0x42, 0xFE, 0];

const TAG: [u8; 5] = [0x5C, 3, 0x5F, 0xC1, 9];

const PIN: [u8; 8] = [0x31, 0x32, 0x33, 0x34, 0x35, 0x36, 0xFF, 0xFF];

fn ok(alloc: Global, body: &[u8]) -> Result<ApiAnswer, Fail> {
    let body = Body::long(body.to_vec(alloc)?);
    Ok(ApiAnswer::Ok { body })
}

fn push(history: &mut History, entry: Entry<'_>) -> Result<(), Fail> {
    let size = match entry {
        Entry::Call { command, .. } => command.body.len(),
        Entry::Cut {
            running: Some((_, command)),
        } => command.body.len(),
        _ => 0,
    };
    history.grow(1, size)?;
    history.push(entry);
    Ok(())
}

fn call(c: u32, ins: u8, p1: u8, p2: u8, body: &[u8], sw: u16) -> Entry<'_> {
    Entry::Call {
        c,
        command: Command { ins, p1, p2, body },
        sw,
        block: None,
    }
}

// The entries of both scripts, one after the other.
fn history(alloc: Global) -> Result<History, Fail> {
    let mut history = History::with_room(alloc, 0, 0)?;
    let entries = [
        Entry::Opened {
            c: 1,
            interface: Interface::Contact,
            shared: true,
        },
        Entry::Opened {
            c: 2,
            interface: Interface::Contact,
            shared: true,
        },
        call(1, 0xA4, 4, 0, &APPLICATION, 0x9000),
        call(2, 0xA4, 4, 0, &APPLICATION[..9], 0x9000),
        call(1, 0x20, 0, 0x80, &PIN, 0x9000),
        call(2, 0xCB, 0x3F, 0xFF, &TAG, 0x6982),
        call(1, 0xCB, 0x3F, 0xFF, &TAG, 0x9000),
    ];
    for entry in entries {
        push(&mut history, entry)?;
    }
    Ok(history)
}

fn answers(alloc: Global) -> Result<Vec<Vec<ApiAnswer>>, Fail> {
    let mut first = Vec::new(alloc);
    first.push(ok(alloc, &[])?)?;
    first.push(ok(alloc, &TEMPLATE)?)?;
    first.push(ok(alloc, &[])?)?;
    first.push(ok(alloc, &PRINTED)?)?;
    let mut second = Vec::new(alloc);
    second.push(ok(alloc, &[])?)?;
    second.push(ok(alloc, &TEMPLATE)?)?;
    second.push(ApiAnswer::SecurityConditions { rule: Rule::Pin })?;
    let mut both = Vec::new(alloc);
    both.push(first)?;
    both.push(second)?;
    Ok(both)
}

#[test]
fn two_scripts_take_turns_at_one_card(rt: HostRuntime) -> Result<(), Fail> {
    let alloc = rt.alloc();
    let scene = read_scene(alloc, SCENE)?;
    let answers = answers(alloc)?;
    let mut histories = Vec::new(alloc);
    histories.push(history(alloc)?)?;
    if answers.as_slice().len() != scene.scripts() {
        return Err(Fail::from("other scripts"));
    }
    if histories.as_slice().len() != scene.cards() {
        return Err(Fail::from("other cards"));
    }
    let mut sink = MemSink::new(alloc, 4096, 7, Vec::new(alloc)).or(Err("memory"))?;
    print_run(&scene, answers.as_slice(), histories.as_slice(), &mut sink).or(Err("not printed"))?;
    assert!(rt; sink.taken() == TEXT.as_bytes());
    Ok(())
}

#[test]
fn granted_and_refused_commands_are_counted(rt: HostRuntime) -> Result<(), Fail> {
    let alloc = rt.alloc();
    let history = history(alloc)?;
    let mut sink = MemSink::new(alloc, 4096, 4096, Vec::new(alloc)).or(Err("memory"))?;
    print_summary(7, &history, &mut sink).or(Err("not printed"))?;
    assert!(rt; sink.taken() == SUMMARY.as_bytes());
    Ok(())
}
