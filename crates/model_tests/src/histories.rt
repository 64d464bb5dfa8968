// The entries of a history.
use piv_model::{ActKind, Command, Entry, History, Interface, Refusal, Took};
use std::alloc::Global;
use std::process::Abort;

const PIN: [u8; 8] = [0x31, 0x32, 0x33, 0x34, 0x35, 0x36, 0xFF, 0xFF];

fn verify() -> Command<'static> {
    Command {
        ins: 0x20,
        p1: 0x00,
        p2: 0x80,
        body: &PIN,
    }
}

fn filled(rt: &impl Abort, mut history: History) -> History {
    let entries = [
        Entry::Opened {
            c: 1,
            interface: Interface::Contact,
            shared: true,
        },
        Entry::Call {
            c: 1,
            command: verify(),
            sw: 0x9000,
            block: Some([7; 16]),
        },
        Entry::Part { c: 1 },
        Entry::Rest { c: 1 },
        Entry::Bad { c: 1, sw: 0x6700 },
        Entry::Reset {
            interface: Interface::Contactless,
        },
        Entry::Cut {
            running: Some((1, verify())),
        },
        Entry::Up { took: Took::Spent },
        Entry::Note {
            act: ActKind::Power,
            answer: Refusal::On,
        },
        Entry::Cut { running: None },
        Entry::Closed { c: 1 },
    ];
    for entry in entries {
        let size = match entry {
            Entry::Call { command, .. } => command.body.len(),
            Entry::Cut {
                running: Some((_, command)),
            } => command.body.len(),
            _ => 0,
        };
        let room = history.room();
        assert!(rt; room.0 >= 1 && room.1 >= size);
        history.push(entry);
    }
    history
}

fn expect_filled(rt: &impl Abort, alloc: Global, history: &History) {
    let texts = [
        "Opened { c: 1, interface: Contact, shared: true }",
        "Call { c: 1, command: Command { ins: 32, p1: 0, p2: 128, body: [49, 50, 51, 52, 53, 54, 255, 255] }, sw: 36864, block: Some([7, 7, 7, 7, 7, 7, 7, 7, 7, 7, 7, 7, 7, 7, 7, 7]) }",
        "Part { c: 1 }",
        "Rest { c: 1 }",
        "Bad { c: 1, sw: 26368 }",
        "Reset { interface: Contactless }",
        "Cut { running: Some((1, Command { ins: 32, p1: 0, p2: 128, body: [49, 50, 51, 52, 53, 54, 255, 255] })) }",
        "Up { took: Spent }",
        "Note { act: Power, answer: On }",
        "Cut { running: None }",
        "Closed { c: 1 }",
    ];
    assert_eq!(rt; history.len(), texts.len());
    for k in 0..history.len() {
        let said: Result<_, _> = format!(in alloc; "{:?}", history.entry(k));
        assert_eq!(rt; said.expect(rt, "a text").as_str(), texts[k]);
    }
}

#[test]
fn a_history_gives_back_what_was_pushed(rt: HostRuntime) {
    let history = History::with_room(rt.alloc(), 11, 16).expect(&rt, "room for all");
    assert_eq!(rt; history.room(), (11, 16));
    let history = filled(&rt, history);
    assert_eq!(rt; history.room(), (0, 0));
    expect_filled(&rt, rt.alloc(), &history);
}

#[test]
fn a_history_that_grows_keeps_its_entries(rt: HostRuntime) {
    let mut history = History::with_room(rt.alloc(), 0, 0).expect(&rt, "no room");
    history.grow(11, 16).expect(&rt, "room for all");
    let mut history = filled(&rt, history);
    history.grow(3, 100).expect(&rt, "room for more");
    let room = history.room();
    assert!(rt; room.0 >= 3 && room.1 >= 100);
    expect_filled(&rt, rt.alloc(), &history);
}

#[test]
fn a_copy_has_the_same_entries(rt: HostRuntime) {
    let history = History::with_room(rt.alloc(), 11, 16).expect(&rt, "room for all");
    let history = filled(&rt, history);
    let copy = history.copy().expect(&rt, "a copy");
    drop(history);
    expect_filled(&rt, rt.alloc(), &copy);
}

fn moves<T: Send>(value: T) -> T {
    value
}

#[test]
fn a_history_moves_between_threads(rt: HostRuntime) {
    let history = History::with_room(rt.alloc(), 0, 0);
    assert!(rt; moves(history).is_ok_and(|h| h.len() == 0));
}
