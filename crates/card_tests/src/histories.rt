// What a history says of a connection and of a counter, as the whole card reads its commands.
use card_commands::Traits;
use piv_model::application_names::{IDLE, TRUNCATED};
use piv_model::{Command, Entry, Interface, RefId, Rule, Took};
use piv_rules::{Login, Pending, is_entitled, is_in_force, pending_on, tries_left};

const CARD: Traits = Traits {
    has_global: true,
    admin_algorithm: 0x08,
    card_algorithm: 0x08,
};

static PIN: [u8; 8] = [0x31, 0x32, 0x33, 0x34, 0x35, 0x36, 0xFF, 0xFF];

static PUK_AND_PIN: [u8; 16] = [
    0x31, 0x32, 0x33, 0x34, 0x35, 0x36, 0x37, 0x38, 0x36, 0x35, 0x34, 0x33, 0x32, 0x31, 0xFF, 0xFF,
];

static ASK_CHALLENGE: [u8; 4] = [0x7C, 0x02, 0x81, 0x00];

static ASK_WITNESS: [u8; 4] = [0x7C, 0x02, 0x80, 0x00];

// The template with a response of 16 bytes.
static RESPONSE: [u8; 20] = [
    0x7C, 0x12, 0x82, 0x10, 0xA5, 0xA5, 0xA5, 0xA5, 0xA5, 0xA5, 0xA5, 0xA5, 0xA5, 0xA5, 0xA5, 0xA5,
    0xA5, 0xA5, 0xA5, 0xA5,
];

const BLOCK: [u8; 16] = [0xA5; 16];

fn command(ins: u8, p1: u8, p2: u8, body: &[u8]) -> Command<'_> {
    Command { ins, p1, p2, body }
}

fn called(command: Command<'_>, sw: u16) -> Entry<'_> {
    Entry::Call {
        c: 1,
        command,
        sw,
        block: None,
    }
}

fn selected(name: &[u8]) -> Entry<'_> {
    called(command(0xA4, 0x04, 0x00, name), 0x9000)
}

// VERIFY of this reference.
fn verified(p2: u8, sw: u16) -> Entry<'static> {
    called(command(0x20, 0x00, p2, &PIN), sw)
}

// RESET RETRY COUNTER.
fn unblocked(sw: u16) -> Entry<'static> {
    called(command(0x2C, 0x00, 0x80, &PUK_AND_PIN), sw)
}

// A request that drew the block.
fn requested(body: &[u8]) -> Entry<'_> {
    Entry::Call {
        c: 1,
        command: command(0x87, 0x08, 0x9B, body),
        sw: 0x9000,
        block: Some(BLOCK),
    }
}

fn opened(c: u32) -> Entry<'static> {
    Entry::Opened {
        c,
        interface: Interface::Contact,
        shared: true,
    }
}

fn reset(interface: Interface) -> Entry<'static> {
    Entry::Reset { interface }
}

#[test]
fn each_login_ends_by_its_own(rt: HostRuntime) {
    let (select, idle) = (selected(&TRUNCATED), selected(&IDLE));
    let (pin, global) = (verified(0x80, 0x9000), verified(0x00, 0x9000));
    let (wrong, wrong_global) = (verified(0x80, 0x63C2), verified(0x00, 0x63C2));
    let log_out = called(command(0x20, 0xFF, 0x80, &[]), 0x9000);
    let cut = Entry::Cut { running: None };
    let (front, gate) = (reset(Interface::Contact), reset(Interface::Contactless));
    let table: [(&[Entry<'_>], bool, bool); 13] = [
        (&[global, pin, select, opened(1)], true, true),
        (&[select, global, pin, select, opened(1)], true, true),
        (&[opened(2), global, pin, select, opened(1)], true, true),
        (&[idle, global, pin, select, opened(1)], false, true),
        (&[log_out, global, pin, select, opened(1)], false, true),
        (&[wrong, global, pin, select, opened(1)], false, true),
        (&[wrong_global, global, pin, select, opened(1)], true, false),
        (
            &[unblocked(0x63C2), global, pin, select, opened(1)],
            false,
            true,
        ),
        (
            &[unblocked(0x6983), global, pin, select, opened(1)],
            true,
            true,
        ),
        (&[opened(1), global, pin, select, opened(1)], false, false),
        (&[cut, global, pin, select, opened(1)], false, false),
        (&[front, global, pin, select, opened(1)], false, false),
        (&[gate, global, pin, select, opened(1)], true, true),
    ];
    for (entries, by_pin, by_global) in table {
        assert_eq!(rt; is_in_force(&CARD, entries, 1, Login::Pin), by_pin);
        assert_eq!(rt; is_in_force(&CARD, entries, 1, Login::Global), by_global);
        assert!(rt; !is_in_force(&CARD, entries, 1, Login::Admin));
        assert!(rt; !is_in_force(&CARD, entries, 2, Login::Pin));
    }
}

#[test]
fn tries_are_spent_by_mismatches_and_losses_and_filled_by_matches(rt: HostRuntime) {
    let (right, wrong) = (verified(0x80, 0x9000), verified(0x80, 0x63C2));
    let cut_login = Entry::Cut {
        running: Some((1, command(0x20, 0x00, 0x80, &PIN))),
    };
    let cut = Entry::Cut {
        running: Some((1, command(0x2C, 0x00, 0x80, &PUK_AND_PIN))),
    };
    let (wrong_puk, renewed) = (unblocked(0x63C2), unblocked(0x9000));
    let nothing = Entry::Up {
        took: Took::Nothing,
    };
    let spent = Entry::Up { took: Took::Spent };
    let done = Entry::Up { took: Took::Done };
    let table: [(&[Entry<'_>], u8, u8); 12] = [
        (&[opened(1)], 3, 3),
        (&[wrong, opened(1)], 2, 3),
        (&[wrong, wrong, opened(1)], 1, 3),
        (&[right, wrong, opened(1)], 3, 3),
        (&[nothing, cut_login, wrong, opened(1)], 2, 3),
        (&[spent, cut_login, wrong, opened(1)], 1, 3),
        (&[done, cut_login, wrong, opened(1)], 3, 3),
        (&[wrong_puk, wrong, wrong, opened(1)], 1, 2),
        (&[renewed, wrong_puk, wrong, wrong, opened(1)], 3, 3),
        (&[nothing, cut, wrong_puk, wrong, wrong, opened(1)], 1, 2),
        (&[spent, cut, wrong_puk, wrong, wrong, opened(1)], 1, 1),
        (&[done, cut, wrong_puk, wrong, wrong, opened(1)], 3, 3),
    ];
    for (entries, pin, puk) in table {
        assert_eq!(rt; tries_left(&CARD, entries, RefId::Pin, 3, 3), pin);
        assert_eq!(rt; tries_left(&CARD, entries, RefId::Puk, 3, 3), puk);
        assert_eq!(rt; tries_left(&CARD, entries, RefId::GlobalPin, 3, 3), 3);
    }
}

// Connection 1 is entitled by a PIN, where the Global PIN counts and where it doesn't.
fn pin_opens(entries: &[Entry<'_>], counting: bool, otherwise: bool) -> bool {
    is_entitled(&CARD, entries, 1, Rule::Pin, true) == counting
        && is_entitled(&CARD, entries, 1, Rule::Pin, false) == otherwise
}

// Connection 1 is entitled by the administration key, whatever the Global PIN does.
fn admin_opens(entries: &[Entry<'_>], entitled: bool) -> bool {
    is_entitled(&CARD, entries, 1, Rule::Admin, true) == entitled
        && is_entitled(&CARD, entries, 1, Rule::Admin, false) == entitled
}

fn opened_without_contact(c: u32) -> Entry<'static> {
    Entry::Opened {
        c,
        interface: Interface::Contactless,
        shared: true,
    }
}

#[test]
fn a_pin_entitles_its_own_connection_on_contact(rt: HostRuntime) {
    let (select, idle) = (selected(&TRUNCATED), selected(&IDLE));
    let (pin, global) = (verified(0x80, 0x9000), verified(0x00, 0x9000));
    let gate = opened_without_contact(1);
    assert!(rt; pin_opens(&[select, opened(1)], false, false));
    assert!(rt; pin_opens(&[pin, select, opened(1)], true, true));
    assert!(rt; pin_opens(&[global, select, opened(1)], true, false));
    assert!(rt; pin_opens(&[pin, select, gate], false, false));
    assert!(rt; pin_opens(&[global, select, gate], false, false));
    assert!(rt; pin_opens(&[idle, pin, select, opened(1)], false, false));
    assert!(rt; pin_opens(&[idle, global, select, opened(1)], true, false));
    assert!(rt;
        pin_opens(
            &[reset(Interface::Contact), pin, select, opened(1)],
            false,
            false
        )
    );
    assert!(rt;
        pin_opens(
            &[reset(Interface::Contactless), pin, select, opened(1)],
            true,
            true
        )
    );
    assert!(rt;
        !is_entitled(
            &CARD,
            &[opened(2), pin, select, opened(1)],
            2,
            Rule::Pin,
            true
        )
    );
}

#[test]
fn a_response_entitles_to_administer_on_contact(rt: HostRuntime) {
    let (select, idle) = (selected(&TRUNCATED), selected(&IDLE));
    let challenge = requested(&ASK_CHALLENGE);
    let answered = called(command(0x87, 0x08, 0x9B, &RESPONSE), 0x9000);
    let pin = verified(0x80, 0x9000);
    assert!(rt; admin_opens(&[pin, select, opened(1)], false));
    assert!(rt; admin_opens(&[answered, challenge, select, opened(1)], true));
    assert!(rt; admin_opens(&[challenge, answered, challenge, select, opened(1)], false));
    assert!(rt; admin_opens(&[idle, answered, challenge, select, opened(1)], false));
    assert!(rt;
        admin_opens(
            &[answered, challenge, select, opened_without_contact(1)],
            false
        )
    );
}

// What is pending, in a word.
fn pending_word(entries: &[Entry<'_>]) -> &'static str {
    match pending_on(&CARD, entries, 1) {
        Pending::None => "none",
        Pending::Challenge(_) => "challenge",
        Pending::Witness(_) => "witness",
    }
}

#[test]
fn a_block_is_pending_until_the_next_command_or_a_break(rt: HostRuntime) {
    let select = selected(&TRUNCATED);
    let (challenge, witness) = (requested(&ASK_CHALLENGE), requested(&ASK_WITNESS));
    let refused = called(command(0x87, 0x08, 0x9B, &ASK_CHALLENGE), 0x6982);
    let unknown = called(command(0xC0, 0x00, 0x00, &[]), 0x6D00);
    let bad = Entry::Bad { c: 1, sw: 0x6700 };
    let table: [(&[Entry<'_>], &str); 9] = [
        (&[select, opened(1)], "none"),
        (&[challenge, select, opened(1)], "challenge"),
        (&[witness, select, opened(1)], "witness"),
        (&[witness, challenge, select, opened(1)], "witness"),
        (&[refused, challenge, select, opened(1)], "none"),
        (&[unknown, challenge, select, opened(1)], "none"),
        (&[bad, challenge, select, opened(1)], "challenge"),
        (&[opened(2), challenge, select, opened(1)], "challenge"),
        (
            &[reset(Interface::Contact), challenge, select, opened(1)],
            "none",
        ),
    ];
    for (entries, word) in table {
        assert_eq!(rt; pending_word(entries), word);
    }
}
