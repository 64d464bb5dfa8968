// Answers and entries, printed.
use crate::printing::print_entry;
use crate::{print_answer, print_history};
use piv_model::{
    ActKind, ApiAnswer, Body, Command, Entry, History, Interface, Refusal, ReplyBytes, Rule, Took,
};
use piv_ports::{MemSink, WriteStop};
use std::process::Abort;
use std::test::Fail;

const BLOCK: [u8; 16] = [
    0x76, 0xB8, 0xE0, 0xAD, 0xA0, 0xF1, 0x3D, 0x90, 0x40, 0x5D, 0x6A, 0xE5, 0x53, 0x86, 0xBD, 0x28,
];

const SELECT: Command<'static> = Command {
    ins: 0xA4,
    p1: 4,
    p2: 0,
    body: &[0xA0, 0, 0, 3, 8, 0, 0, 0x10, 0, 1, 0],
};

const VERIFY: Command<'static> = Command {
    ins: 0x20,
    p1: 0,
    p2: 0x80,
    body: &[],
};

const ENTRIES: &str = "opened 1 contact shared
opened 4294967295 contactless exclusive
closed 10
call 1 A4 04 00 A000000308000010000100 9000 -
call 1 20 00 80 - 63C2 76B8E0ADA0F13D90405D6AE55386BD28
part 0
rest 99
bad 7 6700
reset contact
reset contactless
cut
cut 2 A4 04 00 A000000308000010000100
cut 2 20 00 80 -
up nothing
up spent
up done
note connect contact locked
note connect contactless nochannel
note disconnect 4 noconnection
note exchange 5 stale
note exchange 5 mute
note reset contactless off
note cut off
note power on
";

const ANSWERS: &str = "1 PIV_OK
2 PIV_OK 53043E00FE00
3 REPLY - 63C2
4 REPLY 3E00 6102
5 PIV_AUTHENTICATION_FAILURE 6983
6 CARD_STATUS 6F00
7 PIV_SECURITY_CONDITIONS_NOT_SATISFIED ALWAYS
8 PIV_SECURITY_CONDITIONS_NOT_SATISFIED PIN
9 PIV_SECURITY_CONDITIONS_NOT_SATISFIED NEVER
10 PIV_SECURITY_CONDITIONS_NOT_SATISFIED ADMIN
11 PIV_SECURITY_CONDITIONS_NOT_SATISFIED CONTACT
12 PIV_SECURITY_CONDITIONS_NOT_SATISFIED RESPONSE
13 PIV_CONNECTION_DESCRIPTION_MALFORMED
14 PIV_CONNECTION_FAILURE
15 PIV_CONNECTION_LOCKED
16 TRANSCRIPT_FULL
17 PIV_AUTHENTICATOR_MALFORMED
18 PIV_INVALID_OID
19 PIV_INVALID_CARD_HANDLE
20 PIV_CARD_READER_ERROR
21 NOT_SELECTED
22 PIV_CARD_APPLICATION_NOT_FOUND
23 PIV_DATA_OBJECT_NOT_FOUND
24 PIV_INSUFFICIENT_CARD_RESOURCE
25 PIV_INVALID_KEYREF_OR_ALGORITHM
26 PIV_INPUT_BYTES_MALFORMED
27 UNSUPPORTED
28 VERSION 800-73-4 Client API
29 DONE
30 DONE nothing
31 DONE spent
32 DONE done
33 OFF
34 ON
35 LOCKED
36 NOCHANNEL
37 MUTE
38 STALE
18446744073709551615 NOCONNECTION
";

#[rattlefmt::skip]
const PRINTED: [Entry<'static>; 24] = [
    Entry::Opened { c: 1, interface: Interface::Contact, shared: true },
    Entry::Opened { c: 4_294_967_295, interface: Interface::Contactless, shared: false },
    Entry::Closed { c: 10 },
    Entry::Call { c: 1, command: SELECT, sw: 0x9000, block: None },
    Entry::Call { c: 1, command: VERIFY, sw: 0x63C2, block: Some(BLOCK) },
    Entry::Part { c: 0 },
    Entry::Rest { c: 99 },
    Entry::Bad { c: 7, sw: 0x6700 },
    Entry::Reset { interface: Interface::Contact },
    Entry::Reset { interface: Interface::Contactless },
    Entry::Cut { running: None },
    Entry::Cut { running: Some((2, SELECT)) },
    Entry::Cut { running: Some((2, VERIFY)) },
    Entry::Up { took: Took::Nothing },
    Entry::Up { took: Took::Spent },
    Entry::Up { took: Took::Done },
    Entry::Note { act: ActKind::Connect(Interface::Contact), answer: Refusal::Locked },
    Entry::Note { act: ActKind::Connect(Interface::Contactless), answer: Refusal::NoChannel },
    Entry::Note { act: ActKind::Disconnect(4), answer: Refusal::NoConnection },
    Entry::Note { act: ActKind::Exchange(5), answer: Refusal::Stale },
    Entry::Note { act: ActKind::Exchange(5), answer: Refusal::Mute },
    Entry::Note { act: ActKind::Reset(Interface::Contactless), answer: Refusal::Off },
    Entry::Note { act: ActKind::Cut, answer: Refusal::Off },
    Entry::Note { act: ActKind::Power, answer: Refusal::On },
];

// The answers of one word, in the order of the type.
const LONE: [ApiAnswer; 14] = [
    ApiAnswer::ConnectionDescriptionMalformed,
    ApiAnswer::ConnectionFailure,
    ApiAnswer::ConnectionLocked,
    ApiAnswer::TranscriptFull,
    ApiAnswer::AuthenticatorMalformed,
    ApiAnswer::InvalidOid,
    ApiAnswer::InvalidCardHandle,
    ApiAnswer::CardReaderError,
    ApiAnswer::NotSelected,
    ApiAnswer::CardApplicationNotFound,
    ApiAnswer::DataObjectNotFound,
    ApiAnswer::InsufficientCardResource,
    ApiAnswer::InvalidKeyrefOrAlgorithm,
    ApiAnswer::InputBytesMalformed,
];

const RULES: [Rule; 6] = [
    Rule::Always,
    Rule::Pin,
    Rule::Never,
    Rule::Admin,
    Rule::ContactUse,
    Rule::Response,
];

const TOOK: [Took; 3] = [Took::Nothing, Took::Spent, Took::Done];

const WHY: [Refusal; 6] = [
    Refusal::Off,
    Refusal::On,
    Refusal::Locked,
    Refusal::NoChannel,
    Refusal::Mute,
    Refusal::Stale,
];

#[test]
fn each_entry_is_one_line(rt: HostRuntime) -> Result<(), Fail> {
    let mut sink = MemSink::new(rt.alloc(), 4096, 7, Vec::new(rt.alloc())).or(Err("memory"))?;
    for entry in PRINTED {
        assert!(rt; print_entry(entry, &mut sink) == Ok(()));
    }
    assert!(rt; sink.taken() == ENTRIES.as_bytes());
    Ok(())
}

#[test]
fn a_body_longer_than_a_short_text_is_printed_whole(rt: HostRuntime) -> Result<(), Fail> {
    let alloc = rt.alloc();
    let mut sink = MemSink::new(alloc, 700, 700, Vec::new(alloc)).or(Err("memory"))?;
    let body = Body::long([0xA5; 300].to_vec(alloc)?);
    assert!(rt; print_answer(1, &ApiAnswer::Ok { body }, &mut sink) == Ok(()));
    let taken = sink.taken();
    assert_eq!(rt; taken.len(), 610);
    assert!(rt; taken.starts_with(b"1 PIV_OK A5A5") && taken.ends_with(b"A5A5\n"));
    Ok(())
}

#[test]
fn each_answer_is_one_line(rt: HostRuntime) -> Result<(), Fail> {
    let alloc = rt.alloc();
    let mut sink = MemSink::new(alloc, 4096, 7, Vec::new(alloc)).or(Err("memory"))?;
    let none = Body::long(Vec::new(alloc));
    let chuid = Body::short(ReplyBytes::of(&[0x53, 0x04, 0x3E, 0x00, 0xFE, 0x00]));
    let empty = Body::short(ReplyBytes::of(&[]));
    let front = Body::long([0x3E, 0x00].to_vec(alloc)?);
    let first = [
        ApiAnswer::Ok { body: none },
        ApiAnswer::Ok { body: chuid },
        ApiAnswer::Reply {
            body: empty,
            sw: 0x63C2,
        },
        ApiAnswer::Reply {
            body: front,
            sw: 0x6102,
        },
        ApiAnswer::AuthenticationFailure { sw: 0x6983 },
        ApiAnswer::CardStatus { sw: 0x6F00 },
    ];
    for k in 0..6 {
        assert!(rt; print_answer(k + 1, &first[k], &mut sink) == Ok(()));
    }
    for k in 0..6 {
        let answer = ApiAnswer::SecurityConditions { rule: RULES[k] };
        assert!(rt; print_answer(k + 7, &answer, &mut sink) == Ok(()));
    }
    for k in 0..14 {
        assert!(rt; print_answer(k + 13, &LONE[k], &mut sink) == Ok(()));
    }
    assert!(rt; print_answer(27, &ApiAnswer::Unsupported, &mut sink) == Ok(()));
    assert!(rt; print_answer(28, &ApiAnswer::Version, &mut sink) == Ok(()));
    assert!(rt; print_answer(29, &ApiAnswer::Done { took: None }, &mut sink) == Ok(()));
    for k in 0..3 {
        let answer = ApiAnswer::Done {
            took: Some(TOOK[k]),
        };
        assert!(rt; print_answer(k + 30, &answer, &mut sink) == Ok(()));
    }
    for k in 0..6 {
        let answer = ApiAnswer::Refused { why: WHY[k] };
        assert!(rt; print_answer(k + 33, &answer, &mut sink) == Ok(()));
    }
    let answer = ApiAnswer::Refused {
        why: Refusal::NoConnection,
    };
    assert!(rt; print_answer(usize::MAX, &answer, &mut sink) == Ok(()));
    assert!(rt; sink.taken() == ANSWERS.as_bytes());
    Ok(())
}

#[test]
fn a_history_begins_with_its_oldest_entry(rt: HostRuntime) -> Result<(), Fail> {
    let alloc = rt.alloc();
    let mut h = History::with_room(alloc, 2, 0).or(Err("memory"))?;
    let mut sink = MemSink::new(alloc, 100, 1, Vec::new(alloc)).or(Err("memory"))?;
    assert!(rt; print_history(&h, &mut sink) == Ok(()));
    assert!(rt; sink.taken().is_empty());
    if h.grow(2, 0).is_ok() {
        h.push(Entry::Part { c: 1 });
        h.push(Entry::Rest { c: 1 });
    }
    assert!(rt; print_history(&h, &mut sink) == Ok(()));
    assert!(rt; sink.taken() == b"part 1\nrest 1\n".as_slice());
    Ok(())
}

#[test]
fn a_failing_write_leaves_a_prefix(rt: HostRuntime) -> Result<(), Fail> {
    let alloc = rt.alloc();
    let mut sink = MemSink::new(alloc, 100, 5, [3].to_vec(alloc)?).or(Err("memory"))?;
    assert!(rt; print_entry(PRINTED[3], &mut sink) == Err(WriteStop::Failed));
    assert!(rt; sink.taken() == b"call 1 A4 ".as_slice());
    Ok(())
}
