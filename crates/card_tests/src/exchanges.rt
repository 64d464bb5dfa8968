// Exchanges of a card with its connections, over the store in memory.
ghost use Rattle.std.specs.Prelude.{◌≡◌, IsTrue, IfOk};
ghost use Rattle.power_loss.specs.Due.{RisesFrom};
ghost use Rattle.power_loss.specs.Plans.{write_numbers};

use card_app::{Card, Outcome};
use memory_store::{Leaves, Loss, MemoryStore};
use piv_model::Interface::{Contact, Contactless};
use piv_model::{Interface, Store, plain_start};
use std::alloc::Global;
use std::test::Fail;

// The plain card's first random block: the beginning of the key stream of ChaCha20 for a key, a nonce and a counter of zeros.
const BLOCK: [u8; 16] = [
    0x76, 0xB8, 0xE0, 0xAD, 0xA0, 0xF1, 0x3D, 0x90, 0x40, 0x5D, 0x6A, 0xE5, 0x53, 0x86, 0xBD, 0x28,
];

// An APDU or an answer of the rows, which has a name or is hexadecimal text.
fn spelled(word: &str) -> &str {
    match word {
        "select" => "00A404000BA00000030800001000010000",
        "template" => "61114F0600001000010079074F05A0000003089000",
        "login" => "0020008008313233343536FFFF",
        "query" => "00200080",
        "challenge" => "0087089B047C02810000",
        "challenged" => "7C12811076B8E0ADA0F13D90405D6AE55386BD289000",
        // The challenge enciphered under the card management key, as OpenSSL enciphers it; and the same in two parts.
        "response" => "0087089B147C12821042155C90AB20DCE01EB4F8787E51B59A",
        "response1" => "1087089B047C128210",
        "response2" => "0087089B1042155C90AB20DCE01EB4F8787E51B59A",
        "chuid" => "00CB3FFF055C035FC10200",
        "chuid4" => "00CB3FFF055C035FC10204",
        "put" => "00DB3FFF0B5C035FC10253043E01FE00",
        "printed" => "00CB3FFF055C035FC10900",
        "information" => "530601024142FE009000",
        "more" => "00C0000000",
        _ => word,
    }
}

fn text(alloc: Global, word: &str) -> Result<String, Fail> {
    Ok(format!(in alloc; "{word}")?)
}

fn reply(alloc: Global, body: &[u8], sw: u16) -> Result<String, Fail> {
    let mut bytes = Vec::new(alloc);
    bytes.extend_from_slice(body)?;
    bytes.extend_from_slice(&sw.to_be_bytes())?;
    Ok(hex::encode_upper(alloc, bytes)?)
}

fn answer(alloc: Global, outcome: Outcome<'_>) -> Result<String, Fail> {
    match outcome {
        Outcome::Part => text(alloc, "part"),
        Outcome::Call { body, last, .. } => reply(alloc, body, last),
        Outcome::Rest { body, last } => reply(alloc, body, last),
        Outcome::Bad(sw) => reply(alloc, &[], sw),
        Outcome::Mute => text(alloc, "-"),
    }
}

fn open<S: Store>(card: &mut Card<S>, c: u32, interface: Interface) -> &'static str {
    if card.is_attached(c) {
        return "open";
    }
    if card.attach(c, interface) {
        "yes"
    } else {
        "no"
    }
}

fn reset<S: Store>(card: &mut Card<S>, interface: Interface) -> &'static str {
    if !card.has_power() {
        return "off";
    }
    card.reset(interface);
    "ok"
}

fn cut<S: Store>(card: &mut Card<S>) -> &'static str {
    if !card.has_power() {
        return "off";
    }
    card.cut();
    "ok"
}

fn up<S: Store>(alloc: Global, card: &mut Card<S>) -> Result<String, Fail> {
    if card.has_power() {
        return text(alloc, "on");
    }
    let took = card.power_up();
    Ok(format!(in alloc; "{took:?}")?)
}

fn running<S: Store>(alloc: Global, card: &Card<S>) -> Result<String, Fail> {
    match card.running() {
        None => text(alloc, "none"),
        Some((c, command)) => Ok(format!(in alloc; "{c}:{:02X}", command.ins)?),
    }
}

// What is done on connection `c`, which is attached.
fn on_open<S: Store>(
    alloc: Global,
    card: &mut Card<S>,
    c: u32,
    what: &str,
) -> Result<String, Fail> {
    if !card.is_attached(c) {
        return text(alloc, "closed");
    }
    match what {
        "close" => {
            card.detach(c);
            text(alloc, "ok")
        }
        "held" => Ok(format!(in alloc; "{}", card.held(c))?),
        _ => {
            let apdu = hex::decode(alloc, spelled(what)).or(Err("no hexadecimal text"))?;
            answer(alloc, card.exchange(c, apdu.as_slice(), &BLOCK))
        }
    }
}

// What is done on a connection, or on the whole card.
fn act<S: Store>(alloc: Global, card: &mut Card<S>, who: &str, what: &str) -> Result<String, Fail> {
    if who != "card" {
        let c = who.parse::<u32>().or(Err("no number"))?;
        return match what {
            "contact" => text(alloc, open(card, c, Contact)),
            "contactless" => text(alloc, open(card, c, Contactless)),
            _ => on_open(alloc, card, c, what),
        };
    }
    match what {
        "reset_contact" => text(alloc, reset(card, Contact)),
        "reset_contactless" => text(alloc, reset(card, Contactless)),
        "cut" => text(alloc, cut(card)),
        "up" => up(alloc, card),
        _ => running(alloc, card),
    }
}

// Each row is a connection's number or `card`, what is done, and the answer.
fn expect<S: Store>(alloc: Global, card: &mut Card<S>, rows: &str) -> Result<(), Fail> {
    for row in rows.lines() {
        if let Some((who, rest)) = row.trim().split_once(' ') {
            if let Some((what, want)) = rest.split_once(' ') {
                let given = act(alloc, card, who, what)?;
                let is_wanted = given.as_str() == spelled(want);
                is_wanted.then_some(()).ok_or("another answer")?;
            }
        }
    }
    Ok(())
}

fn card_of(alloc: Global, losses: &[Loss]) -> Result<Card<MemoryStore>, Fail>
    requires rises { RisesFrom 0 (write_numbers losses.now) }
{
    let start = plain_start(alloc)?;
    let store = MemoryStore::new(alloc, &start, losses.to_vec(alloc)?)?;
    match Card::new(alloc, store) {
        Ok(card) => Ok(card),
        Err(_) => Err(Fail::from("no memory")),
    }
}

fn plain_card(alloc: Global) -> Result<Card<MemoryStore>, Fail> {
    card_of(alloc, &[])
}

// The plain card, whose store loses power in this write, counted from 1.
fn losing_card(alloc: Global, write: u64, how: Leaves) -> Result<Card<MemoryStore>, Fail> {
    let write = write.max(1);
    card_of(alloc, &[Loss { write, how }])
}

#[test]
fn sixteen_are_attached_and_no_seventeenth(rt: HostRuntime) -> Result<(), Fail> {
    let rows = "
        1 contact yes
        2 contactless yes
        3 contact yes
        4 contactless yes
        5 contact yes
        6 contactless yes
        7 contact yes
        8 contactless yes
        9 contact yes
        10 contactless yes
        11 contact yes
        12 contactless yes
        13 contact yes
        14 contactless yes
        15 contact yes
        16 contactless yes
        17 contact no
        17 contactless no
        3 close ok
        17 contact yes
        18 contact no
    ";
    expect(rt.alloc(), &mut plain_card(rt.alloc())?, rows)
}

#[test]
fn chains_and_replies_belong_to_one_connection(rt: HostRuntime) -> Result<(), Fail> {
    let rows = "
        1 contact yes
        2 contact yes
        1 select template
        2 select template
        1 102000800431323334 part
        1 held 4
        2 held 0
        2 query 63C3
        2 10200080023132 part
        1 00200080043536FFFF 9000
        1 query 9000
        1 held 0
        2 held 2
        2 chuid 6883
        2 held 0
        2 query 63C3
        2 chuid4 53043E006102
        1 more 6985
        2 more FE009000
        2 more 6985
        2 chuid4 53043E006102
        2 query 63C3
        2 more 6985
    ";
    expect(rt.alloc(), &mut plain_card(rt.alloc())?, rows)
}

#[test]
fn a_login_counts_on_its_own_connection(rt: HostRuntime) -> Result<(), Fail> {
    let rows = "
        1 contact yes
        2 contactless yes
        3 contact yes
        1 select template
        2 select template
        3 select template
        1 login 9000
        1 printed information
        2 printed 6982
        3 printed 6982
        1 close ok
        1 printed closed
        4 contact yes
        4 printed 6D00
        4 select template
        4 printed 6982
    ";
    expect(rt.alloc(), &mut plain_card(rt.alloc())?, rows)
}

#[test]
fn a_reset_of_one_interface_leaves_the_other(rt: HostRuntime) -> Result<(), Fail> {
    let rows = "
        1 contact yes
        2 contactless yes
        3 contact yes
        1 select template
        2 select template
        3 select template
        1 login 9000
        1 challenge challenged
        1 response1 part
        2 10CB3FFF025C03 part
        3 chuid4 53043E006102
        card reset_contactless ok
        2 held 0
        2 chuid 6D00
        1 held 4
        3 more FE009000
        1 response2 9000
        1 query 9000
        1 challenge challenged
        1 response1 part
        2 select template
        2 chuid4 53043E006102
        3 chuid4 53043E006102
        card reset_contact ok
        1 held 0
        1 query 6D00
        1 select template
        1 query 63C3
        1 response 6A80
        3 more 6985
        2 more FE009000
    ";
    expect(rt.alloc(), &mut plain_card(rt.alloc())?, rows)
}

#[test]
fn a_cut_ends_challenges_and_logins(rt: HostRuntime) -> Result<(), Fail> {
    let rows = "
        1 contact yes
        1 select template
        1 login 9000
        1 challenge challenged
        card cut ok
        1 response -
        card reset_contact off
        card running none
        card up Nothing
        1 response 6D00
        1 select template
        1 query 63C3
        1 response 6A80
    ";
    expect(rt.alloc(), &mut plain_card(rt.alloc())?, rows)
}

const LOST_LOGIN: &str = "
    1 contact yes
    2 contactless yes
    1 select template
    1 login -
    card running 1:20
    1 select -
    2 close ok
    card running 1:20
";

const LOST_PUT: &str = "
    1 contact yes
    1 select template
    1 challenge challenged
    1 response 9000
    1 put -
    card running 1:DB
";

// A login has two writes that spend a try and two that fill the counter; a put of one block has three.
#[test]
fn a_lost_command_is_told_by_the_memory_that_stands(rt: HostRuntime) -> Result<(), Fail> {
    let alloc = rt.alloc();
    let (old, new) = (Leaves::Old, Leaves::New);
    for (write, leaves, lost, then) in [
        (
            1,
            old,
            LOST_LOGIN,
            "card up Nothing\n1 select template\n1 query 63C3",
        ),
        (
            2,
            new,
            LOST_LOGIN,
            "card up Spent\n1 select template\n1 query 63C2",
        ),
        (
            3,
            old,
            LOST_LOGIN,
            "card up Spent\n1 select template\n1 query 63C2",
        ),
        (
            4,
            new,
            LOST_LOGIN,
            "card up Nothing\n1 select template\n1 query 63C3",
        ),
        (
            1,
            old,
            LOST_PUT,
            "card up Nothing\n1 select template\n1 chuid 53043E00FE009000",
        ),
        (
            3,
            new,
            LOST_PUT,
            "card up Done\n1 select template\n1 chuid 53043E01FE009000",
        ),
    ] {
        let mut card = losing_card(alloc, write, leaves)?;
        expect(alloc, &mut card, lost)?;
        expect(alloc, &mut card, then)?;
        expect(
            alloc,
            &mut card,
            "card running none\ncard cut ok\ncard up Nothing",
        )?;
    }
    Ok(())
}

fn moves<T: Send>(value: T) -> T
    ensures { result ≡ value }
{
    value
}

fn moves_where_its_store_does<S: Store + Send>(card: Card<S>) -> Card<S>
    ensures { result ≡ card }
{
    moves(card)
}

#[test]
fn a_card_moves_between_threads(rt: HostRuntime) -> Result<(), Fail> {
    let mut card = moves_where_its_store_does(plain_card(rt.alloc())?);
    expect(rt.alloc(), &mut card, "1 contact yes\n1 select template")
}
