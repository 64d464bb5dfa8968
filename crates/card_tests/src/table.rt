// The table of answers and the histories of connections, as the plain programs of the rules compute them.
ghost use Rattle.piv_rules.specs.Lent.{AreFew};

use piv_model::{Command, Entry, Interface, ObjectId, RefId, Rule, Took, object_by_tag};
use piv_rules::{
    Asked, Counter, Pending, Purpose, Seen, answer_word, conditions_of, is_break, running_at,
    side_of, word_of,
};

static RIGHT: [u8; 8] = [0x31, 0x32, 0x33, 0x34, 0x35, 0x36, 0xFF, 0xFF];

static WRONG: [u8; 8] = [0x39, 0x39, 0x39, 0x39, 0x39, 0x39, 0xFF, 0xFF];

fn opened(interface: Interface) -> Entry<'static> {
    Entry::Opened {
        c: 1,
        interface,
        shared: true,
    }
}

#[test]
fn an_opening_is_a_break_and_names_its_side(rt: HostRuntime) {
    let start = opened(Interface::Contactless);
    assert_eq!(rt; side_of(&[start], 1), Interface::Contactless);
    assert!(rt; is_break(&start, &[], 1));
}

#[test]
fn the_last_loss_names_the_command_that_it_cut(rt: HostRuntime) {
    let start = opened(Interface::Contact);
    let command = Command {
        ins: 0x20,
        p1: 0x00,
        p2: 0x80,
        body: &RIGHT,
    };
    let cut = Entry::Cut {
        running: Some((1, command)),
    };
    let up = Entry::Up { took: Took::Spent };
    assert!(rt; running_at(&[up, cut, start]).is_some());
    assert!(rt; running_at(&[Entry::Cut { running: None }, up, cut, start]).is_none());
}

static NOTHING: &[u8] = &[];

static FITTING: [u8; 128] = [0x5A; 128];

static LONG: [u8; 129] = [0x5A; 129];

const OBJECTS: [&[u8]; 3] = [&[], &[0x3E, 0x00, 0xFE, 0x00], &[]];

const RESPONSE: [u8; 16] = [0xA5; 16];

static PUK: [u8; 8] = [0x31, 0x32, 0x33, 0x34, 0x35, 0x36, 0x37, 0x38];

// A card with a CHUID, on which PIV was just selected on contact.
fn seen() -> Seen<'static>
    ensures { AreFew result }
{
    Seen {
        interface: Interface::Contact,
        piv: true,
        pin: false,
        global: false,
        admin: false,
        pending: Pending::None,
        global_counts: false,
        pin_counter: Counter {
            tries: 3,
            secret: &RIGHT,
        },
        puk_counter: Counter {
            tries: 3,
            secret: &PUK,
        },
        global_counter: Counter {
            tries: 0,
            secret: NOTHING,
        },
        objects: &OBJECTS,
        used: 1,
        budget: 3,
    }
}

fn object(tag: &[u8]) -> ObjectId {
    object_by_tag(tag).unwrap_or(ObjectId::discovery())
}

fn login(pin: [u8; 8]) -> Asked<'static> {
    Asked::Compare(RefId::Pin, pin, Purpose::Verify)
}

// A situation, what is asked in it under which rule, and the word.
type Row = (Seen<'static>, Asked<'static>, Rule, u16);

fn word_in(row: &Row) -> u16 {
    let seen = &row.0;
    if seen.pin_counter.tries > 15
        || seen.puk_counter.tries > 15
        || seen.global_counter.tries > 15
    {
        return 0;
    }
    answer_word(seen, &row.1, row.2, false)
}

#[test]
fn the_first_line_that_fits_decides(rt: HostRuntime) {
    let start = seen();
    let logged_in = Seen { pin: true, ..start };
    let administered = Seen {
        admin: true,
        ..start
    };
    let idle = Seen {
        piv: false,
        ..start
    };
    let gate = Seen {
        interface: Interface::Contactless,
        ..logged_in
    };
    let blocked = Seen {
        pin_counter: Counter {
            tries: 0,
            secret: &RIGHT,
        },
        ..start
    };
    let challenged = Seen {
        pending: Pending::Challenge([0; 16]),
        ..start
    };
    let chuid = object(&[0x5F, 0xC1, 0x02]);
    let certificate = object(&[0x5F, 0xC1, 0x05]);
    let table: [Row; 20] = [
        (idle, Asked::Get(chuid), Rule::Always, 0x6D00),
        (start, Asked::Refused(0x6A80), Rule::Always, 0x6A80),
        (idle, Asked::Refused(0x6A80), Rule::Always, 0x6D00),
        (start, Asked::Get(chuid), Rule::Always, 0x9000),
        (start, Asked::Get(certificate), Rule::Always, 0x6A82),
        (start, Asked::Get(certificate), Rule::Pin, 0x6982),
        (logged_in, Asked::Get(certificate), Rule::Pin, 0x6A82),
        (gate, Asked::Get(chuid), Rule::Pin, 0x6982),
        (start, Asked::Put(chuid, &FITTING), Rule::Admin, 0x6982),
        (
            administered,
            Asked::Put(chuid, &FITTING),
            Rule::Admin,
            0x9000,
        ),
        (administered, Asked::Put(chuid, &LONG), Rule::Admin, 0x6A84),
        (start, login(RIGHT), Rule::ContactUse, 0x9000),
        (start, login(WRONG), Rule::ContactUse, 0x63C2),
        (blocked, login(RIGHT), Rule::ContactUse, 0x6983),
        (gate, login(RIGHT), Rule::ContactUse, 0x6982),
        (start, Asked::Query(RefId::Pin), Rule::ContactUse, 0x63C3),
        (
            logged_in,
            Asked::Query(RefId::Pin),
            Rule::ContactUse,
            0x9000,
        ),
        (start, Asked::External(RESPONSE), Rule::ContactUse, 0x6A80),
        (
            challenged,
            Asked::External(RESPONSE),
            Rule::ContactUse,
            0x9000,
        ),
        (
            challenged,
            Asked::Mutual(RESPONSE, RESPONSE),
            Rule::ContactUse,
            0x6A80,
        ),
    ];
    assert_eq!(rt;
        answer_word(
            &challenged,
            &Asked::External(RESPONSE),
            Rule::ContactUse,
            true
        ),
        0x6982
    );
    assert_eq!(rt;
        word_of(&conditions_of(&start, &Asked::AskWitness, Rule::ContactUse, false)),
        0x9000
    );
    for row in &table {
        assert_eq!(rt; word_in(row), row.3, "{:?}", row.1);
    }
}
