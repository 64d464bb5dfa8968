// The commands of the card, over the store in memory.
ghost use Rattle.std.specs.Prelude.{◌≡◌, IsTrue, IfOk};
ghost use Rattle.power_loss.specs.Due.{RisesFrom};
ghost use Rattle.power_loss.specs.Plans.{write_numbers};
ghost use Rattle.piv_model.specs.Starts.{SpellsMemory};

use card_commands::{Conn, execute, losses_are_told, took, words_are_those_of_the_table};
use memory_store::{Leaves, Loss, MemoryStore};
use piv_chaining::Pieces;
use piv_model::Interface::{Contact, Contactless};
use piv_model::{Command, Interface, NoMemory, Start, Store, plain_start};
use std::alloc::Global;
use std::test::Fail;
use test_starts::{global_start, limited_start};

// The plain card's first random block: the beginning of the key stream of ChaCha20 for a key, a nonce and a counter of zeros.
const BLOCK: [u8; 16] = [
    0x76, 0xB8, 0xE0, 0xAD, 0xA0, 0xF1, 0x3D, 0x90, 0x40, 0x5D, 0x6A, 0xE5, 0x53, 0x86, 0xBD, 0x28,
];

// A command or an answer of the rows, which has a name or is hexadecimal text.
pub(crate) fn spelled(word: &str) -> &str {
    match word {
        "select" => "00A404000BA00000030800001000010000",
        "template" => "61114F0600001000010079074F05A0000003089000",
        "idle" => "00A4040005F049444C45",
        "login" => "0020008008313233343536FFFF",
        "wrong" => "0020008008393939393939FFFF",
        "query" => "00200080",
        "global_login" => "0020000008393837363534FFFF",
        "global_wrong" => "0020000008393939393939FFFF",
        "global_query" => "00200000",
        // What the commands that store another value store.
        "login_by_new" => "0020008008363534333231FFFF",
        "global_login_by_new" => "0020000008303132333435FFFF",
        "change" => "0024008010313233343536FFFF363534333231FFFF",
        "wrong_change" => "0024008010393939393939FFFF363534333231FFFF",
        "global_change" => "0024000010393837363534FFFF303132333435FFFF",
        "wrong_global_change" => "0024000010393939393939FFFF303132333435FFFF",
        "wrong_change_of_puk" => "0024008110303030303030303038373635343332FF",
        "unblock" => "002C0080103132333435363738363534333231FFFF",
        "wrong_unblock" => "002C0080103030303030303030363534333231FFFF",
        "challenge" => "0087089B047C02810000",
        "challenged" => "7C12811076B8E0ADA0F13D90405D6AE55386BD289000",
        // The challenge enciphered under the card management key, as OpenSSL enciphers it.
        "response" => "0087089B147C12821042155C90AB20DCE01EB4F8787E51B59A",
        "zeros" => "0087089B147C12821000000000000000000000000000000000",
        "chuid" => "00CB3FFF055C035FC10200",
        "printed" => "00CB3FFF055C035FC10900",
        "information" => "530601024142FE009000",
        _ => word,
    }
}

// A card with one connection. A command that loses power is answered what is then said of it, and the power is on again.
#[derive(Drop)]
pub(crate) struct Card<S: Store> {
    store: S,
    conn: Conn,
    pub(crate) out: Pieces,
    interface: Interface,
    draws: u64,
    ghost on: { IsTrue (S.state store).power.on },
}

// The power is on again where a command lost it.
fn on_again<S: Store>(store: &mut S, is_on: bool)
    requires on { (S.state store.old).power.on ≡ is_on }
    ensures on { IsTrue (S.state store.new).power.on }
{
    if !is_on {
        store.power_up();
    }
}

impl<S: Store> Card<S> {
    pub(crate) fn send(&mut self, alloc: Global, apdu: &str) -> Result<String, Fail> {
        let bytes = hex::decode(alloc, apdu).or(Err("no hexadecimal text"))?;
        let header = bytes.get(..4).ok_or("no header")?;
        let size = usize::from(bytes.get(4).copied().unwrap_or(0));
        let command = Command {
            ins: header[1],
            p1: header[2],
            p2: header[3],
            body: bytes.get(5..5 + size).unwrap_or(&[]),
        };
        self.run(alloc, command)
    }

    pub(crate) fn run(&mut self, alloc: Global, command: Command<'_>) -> Result<String, Fail> {
        self.out.clear();
        let done = execute(
            command,
            &mut self.conn,
            self.interface,
            &mut self.store,
            &BLOCK,
            &mut self.out,
        );
        on_again(&mut self.store, done.is_ok());
        match done {
            Ok(executed) => {
                if executed.drew {
                    self.draws = self.draws.saturating_add(1);
                }
                let mut reply = Vec::new(alloc);
                if self.out.step(256).is_some() {
                    reply.extend_from_slice(self.out.piece())?;
                }
                reply.extend_from_slice(&executed.sw.to_be_bytes())?;
                Ok(hex::encode_upper(alloc, reply)?)
            }
            Err(broken) => {
                self.conn = Conn::new();
                let said = took(&self.store, command, broken);
                Ok(format!(in alloc; "{said:?}")?)
            }
        }
    }
}

pub(crate) fn card_of(
    alloc: Global,
    start: &Start,
    losses: &[Loss],
) -> Result<Card<MemoryStore>, Fail>
    requires spells { SpellsMemory start.now }
    requires rises { RisesFrom 0 (write_numbers losses.now) }
{
    Ok(Card {
        store: MemoryStore::new(alloc, start, losses.to_vec(alloc)?)?,
        conn: Conn::new(),
        out: Pieces::new(alloc)?,
        interface: Contact,
        draws: 0,
    })
}

pub(crate) fn plain_card(alloc: Global) -> Result<Card<MemoryStore>, Fail> {
    card_of(alloc, &plain_start(alloc)?, &[])
}

// The plain card, whose store loses power in this write, counted from 1.
pub(crate) fn losing_card(
    alloc: Global,
    write: u64,
    how: Leaves,
) -> Result<Card<MemoryStore>, Fail> {
    let write = write.max(1);
    card_of(alloc, &plain_start(alloc)?, &[Loss { write, how }])
}

// Each row is a command and its answer.
pub(crate) fn expect<S: Store>(alloc: Global, card: &mut Card<S>, rows: &str) -> Result<(), Fail> {
    for row in rows.lines() {
        if let Some((apdu, want)) = row.trim().split_once(' ') {
            if apdu != "#" {
                let answer = card.send(alloc, spelled(apdu))?;
                let is_wanted = answer.as_str() == spelled(want);
                is_wanted.then_some(()).ok_or("another answer")?;
            }
        }
    }
    Ok(())
}

#[test]
fn a_login_opens_an_object_until_another_application_is_selected(
    rt: HostRuntime,
) -> Result<(), Fail> {
    let alloc = rt.alloc();
    let mut card = plain_card(alloc)?;
    let rows = "
        chuid 6D00
        select template
        chuid 53043E00FE009000
        00CB3FFF035C017E00 7E124F0BA0000003080000100001005F2F0240009000
        00CB3FFF055C035FC10700 6A82
        printed 6982
        login 9000
        query 9000
        printed information
        # Selected again, by its short name too, and another name leave the login.
        00A4040009A0000003080000100000 template
        printed information
        00A4040005A000000001 6A82
        printed information
        idle 9000
        printed 6D00
        select template
        printed 6982
    ";
    expect(alloc, &mut card, rows)
}

#[test]
fn wrong_pins_block_the_pin_and_the_puk_unblocks_it(rt: HostRuntime) -> Result<(), Fail> {
    let alloc = rt.alloc();
    let mut card = plain_card(alloc)?;
    let rows = "
        select template
        # Five digits; a PUK; another P1.
        00200080083132333435FFFFFF 6A80
        query 63C3
        00200081 6A88
        00200180 6A86
        00200000 6A88
        wrong 63C2
        wrong 63C1
        wrong 63C0
        login 6983
        query 63C0
        0024008010313233343536FFFF363534333231FFFF 6983
        002C0080103030303030303030363534333231FFFF 63C2
        002C0080103132333435363738363534333231FFFF 9000
        query 63C3
        login 63C2
        0020008008363534333231FFFF 9000
        query 9000
    ";
    expect(alloc, &mut card, rows)
}

#[test]
fn a_change_logs_in_and_a_mismatch_ends_the_login(rt: HostRuntime) -> Result<(), Fail> {
    let alloc = rt.alloc();
    let mut card = plain_card(alloc)?;
    let rows = "
        select template
        0024008010313233343536FFFF363534333231FFFF 9000
        query 9000
        login 63C2
        query 63C2
        0020008008363534333231FFFF 9000
        0020FF80 9000
        query 63C3
        0020008008363534333231FFFF 9000
        # A wrong PUK ends the PIN's login in RESET RETRY COUNTER, and not in CHANGE REFERENCE DATA.
        0024008110303030303030303038373635343332FF 63C2
        query 9000
        002C0080103030303030303030363534333231FFFF 63C1
        query 63C3
        00240081103132333435363738FF00FF0041424344 9000
        query 63C3
        002C008010FF00FF0041424344313233343536FFFF 9000
        query 63C3
        login 9000
    ";
    expect(alloc, &mut card, rows)
}

#[test]
fn a_challenge_is_answered_once(rt: HostRuntime) -> Result<(), Fail> {
    let alloc = rt.alloc();
    let mut card = plain_card(alloc)?;
    let rows = "
        select template
        0087089E167C148200811000112233445566778899AABBCCDDEEFF00 7C12821069C4E0D86A7B0430D8CDB78070B4C55A9000
        challenge challenged
        zeros 6982
        zeros 6A80
        00DB3FFF0B5C035FC10253043E01FE00 6982
        challenge challenged
        # Every command drops what is pending, also one that is refused.
        00CB3FFE055C035FC10200 6A86
        response 6A80
        challenge challenged
        response 9000
        response 6A80
        00DB3FFF0B5C035FC10253043E01FE00 9000
        chuid 53043E01FE009000
        # A challenge that is granted ends the login.
        challenge challenged
        00DB3FFF0B5C035FC10253043E01FE00 6982
    ";
    expect(alloc, &mut card, rows)?;
    assert_eq!(rt; card.draws, 4);
    Ok(())
}

#[test]
fn a_witness_is_answered_with_its_block(rt: HostRuntime) -> Result<(), Fail> {
    let alloc = rt.alloc();
    let mut card = plain_card(alloc)?;
    let rows = "
        select template
        0087089B047C02800000 7C12801042155C90AB20DCE01EB4F8787E51B59A9000
        0087089B267C24801076B8E0ADA0F13D90405D6AE55386BD28811000112233445566778899AABBCCDDEEFF 7C128210E18A556701FE934A34BA4C026B35F6C19000
        00DB3FFF075C035FC1025300 9000
        0087089B047C02800000 7C12801042155C90AB20DCE01EB4F8787E51B59A9000
        0087089B267C24801076B8E0ADA0F13D90405D6AE55386BD29811000112233445566778899AABBCCDDEEFF 6982
        # A challenge doesn't stand for a Witness.
        challenge challenged
        0087089B267C24801076B8E0ADA0F13D90405D6AE55386BD28811000112233445566778899AABBCCDDEEFF 6A80
        00DB3FFF075C035FC1025300 6982
    ";
    expect(alloc, &mut card, rows)?;
    assert_eq!(rt; card.draws, 3);
    Ok(())
}

#[test]
fn objects_are_put_and_removed_by_an_administrator(rt: HostRuntime) -> Result<(), Fail> {
    let alloc = rt.alloc();
    let mut card = plain_card(alloc)?;
    let rows = "
        select template
        challenge challenged
        response 9000
        00DB3FFF0B5C035FC10253043E01FE00 9000
        chuid 53043E01FE009000
        00DB3FFF075C035FC1025300 9000
        chuid 6A82
        # A policy of a card with a Global PIN, and that of this card.
        00DB3FFF147E124F0BA0000003080000100001005F2F026010 6A80
        00DB3FFF147E124F0BA0000003080000100001005F2F024000 9000
        00CB3FFF035C017E00 7E124F0BA0000003080000100001005F2F0240009000
        # It is neither put under the tag list nor removed.
        00DB3FFF055C017E5300 6A80
        00DB3FFF027E00 6A80
        00CB3FFF035C017E00 7E124F0BA0000003080000100001005F2F0240009000
        idle 9000
        select template
        00DB3FFF0B5C035FC10253043E01FE00 6982
    ";
    expect(alloc, &mut card, rows)
}

// A tag, an unknown reference, a bad form and so on, each with what stands before and behind it in the order of refusals.
#[test]
fn the_first_rule_that_fails_decides(rt: HostRuntime) -> Result<(), Fail> {
    let alloc = rt.alloc();
    let mut card = plain_card(alloc)?;
    let rows = "
        00CB3FFE055C035FC10200 6D00
        select template
        0047009A05AC03800107 6D00
        00C0000000 6D00
        00A4040105A000000001 6A86
        0087079E047C028200 6A86
        00CB3FFE025C0000 6A86
        00200181 6A86
        00200081053132333435 6A88
        002C0181 6A86
        002C008100 6A88
        00CB3FFF025C0000 6A80
        00DB3FFF0A5C035FC10253043E01FE 6A80
        00DB3FFF075C035FC1225400 6A80
        00CB3FFF055C035FC12200 6A82
        00DB3FFF0B5C035FC12253043E01FE00 6A82
        00DB3FFF0B5C035FC10253043E01FE00 6982
        # This object is absent, and asks for a login.
        00CB3FFF055C035FC12100 6982
        login 9000
        00CB3FFF055C035FC12100 6A82
        zeros 6A80
        wrong 63C2
        wrong 63C1
        wrong 63C0
        wrong 6983
    ";
    expect(alloc, &mut card, rows)?;
    card.interface = Contactless;
    let rows = "
        wrong 6982
        zeros 6982
        00200081 6A88
    ";
    expect(alloc, &mut card, rows)
}

#[test]
fn without_contact_no_login_is_asked_given_or_used(rt: HostRuntime) -> Result<(), Fail> {
    let alloc = rt.alloc();
    let mut card = plain_card(alloc)?;
    let logged_in = "
        select template
        login 9000
        challenge challenged
        response 9000
    ";
    expect(alloc, &mut card, logged_in)?;
    card.interface = Contactless;
    let rows = "
        chuid 53043E00FE009000
        00CB3FFF035C017E00 7E124F0BA0000003080000100001005F2F0240009000
        printed 6982
        00CB3FFF055C035FC10700 6982
        login 6982
        query 6982
        0020FF80 6982
        00200080083132333435FFFFFF 6A80
        0024008010313233343536FFFF363534333231FFFF 6982
        002C0080103132333435363738363534333231FFFF 6982
        00DB3FFF0B5C035FC10253043E01FE00 6982
        challenge 6982
        0087089E167C148200811000112233445566778899AABBCCDDEEFF00 7C12821069C4E0D86A7B0430D8CDB78070B4C55A9000
    ";
    expect(alloc, &mut card, rows)?;
    card.interface = Contact;
    // The refusals have ended no login.
    let rows = "
        query 9000
        00DB3FFF075C035FC1025300 9000
    ";
    expect(alloc, &mut card, rows)
}

#[test]
fn a_global_pin_counts_where_the_discovery_object_says_so(rt: HostRuntime) -> Result<(), Fail> {
    let alloc = rt.alloc();
    let mut card = card_of(alloc, &global_start(alloc, 3)?, &[])?;
    let rows = "
        select template
        0020000008393837363534FFFF 9000
        printed 6982
        challenge challenged
        response 9000
        00DB3FFF147E124F0BA0000003080000100001005F2F026010 9000
        printed information
        # It outlasts a change of application.
        idle 9000
        select template
        printed information
        query 63C3
        00200000 9000
        challenge challenged
        response 9000
        00DB3FFF147E124F0BA0000003080000100001005F2F024000 9000
        printed 6982
        0020FF00 9000
        00200000 63C3
        0020000008393939393939FFFF 63C2
        00200000 63C2
        query 63C3
        002C0000103132333435363738363534333231FFFF 6A88
        0024000010393837363534FFFF303132333435FFFF 9000
        00200000 9000
        0020000008393837363534FFFF 63C2
    ";
    expect(alloc, &mut card, rows)
}

#[test]
fn a_change_with_a_wrong_old_value_changes_nothing_but_a_counter_and_a_login(
    rt: HostRuntime,
) -> Result<(), Fail> {
    let alloc = rt.alloc();
    let mut card = card_of(alloc, &global_start(alloc, 3)?, &[])?;
    let rows = "
        select template
        login 9000
        global_login 9000
        wrong_change 63C2
        query 63C2
        printed 6982
        global_query 9000
        # The new value isn't stored, and the old one is right as before.
        login_by_new 63C1
        login 9000
        wrong_global_change 63C2
        global_query 63C2
        query 9000
        printed information
        global_login_by_new 63C1
        global_login 9000
        global_query 9000
        wrong_change_of_puk 63C2
        query 9000
        global_query 9000
        # The PUK that wasn't stored is wrong, and the old one is right.
        002C00801038373635343332FF363534333231FFFF 63C1
        login_by_new 63C2
        login 9000
        002C0080103132333435363738313233343536FFFF 9000
        wrong_change_of_puk 63C2
        # The tries that changes spend are those of every comparison.
        wrong_change 63C2
        wrong 63C1
        wrong_change 63C0
        change 6983
        login 6983
        query 63C0
        global_query 9000
    ";
    expect(alloc, &mut card, rows)
}

#[test]
fn a_card_without_a_global_pin_has_no_such_reference(rt: HostRuntime) -> Result<(), Fail> {
    let alloc = rt.alloc();
    let mut card = plain_card(alloc)?;
    // P1 comes before the reference, and the data and the interface behind it.
    let rows = "
        00200100 6A86
        00240100 6A86
        global_query 6A88
        global_login 6A88
        global_wrong 6A88
        00200000053132333435 6A88
        0020FF00 6A88
        global_change 6A88
        wrong_global_change 6A88
        00240000 6A88
        002C0000103132333435363738363534333231FFFF 6A88
        002C0000 6A88
    ";
    expect(alloc, &mut card, "select template\nlogin 9000")?;
    expect(alloc, &mut card, rows)?;
    expect(alloc, &mut card, "query 9000\n0020FF80 9000\nquery 63C3")?;
    card.interface = Contactless;
    expect(alloc, &mut card, rows)
}

#[test]
fn a_global_pin_is_compared_as_a_pin_and_never_unblocked(rt: HostRuntime) -> Result<(), Fail> {
    let alloc = rt.alloc();
    let mut card = card_of(alloc, &global_start(alloc, 3)?, &[])?;
    let rows = "
        select template
        00200000083132333435FFFFFF 6A80
        0024000010393837363534FFFF3031323334FFFFFF 6A80
        0024000010393837363534FFFF30313233343541FF 6A80
        00240000 6A80
        00240100 6A86
        global_query 63C3
        # The other policy of a card with a Global PIN, and three that no card has.
        challenge challenged
        response 9000
        00DB3FFF147E124F0BA0000003080000100001005F2F026000 6A80
        00DB3FFF147E124F0BA0000003080000100001005F2F026030 6A80
        00DB3FFF147E124F0BA0000003080000100001005F2F024010 6A80
        00DB3FFF147E124F0BA0000003080000100001005F2F026020 9000
        printed 6982
        global_login 9000
        printed information
        global_wrong 63C2
        printed 6982
        global_wrong 63C1
        wrong_global_change 63C0
        global_query 63C0
        global_login 6983
        global_change 6983
        query 63C3
        # What the PUK unblocks is the PIN.
        unblock 9000
        global_query 63C0
        global_login 6983
        login_by_new 9000
        printed information
    ";
    expect(alloc, &mut card, rows)?;
    card.interface = Contactless;
    let rows = "
        global_query 6982
        global_login 6982
        global_change 6982
        0020FF00 6982
        00200000083132333435FFFFFF 6A80
        printed 6982
    ";
    expect(alloc, &mut card, rows)
}

#[test]
fn a_counter_has_one_to_fifteen_tries(rt: HostRuntime) -> Result<(), Fail> {
    let alloc = rt.alloc();
    let mut one = card_of(alloc, &limited_start(alloc, 1)?, &[])?;
    let rows = "
        select template
        query 63C1
        login 9000
        wrong 63C0
        login 6983
    ";
    expect(alloc, &mut one, rows)?;
    let mut fifteen = card_of(alloc, &limited_start(alloc, 15)?, &[])?;
    let rows = "
        select template
        query 63CF
        wrong 63CE
        login 9000
        0020FF80 9000
        query 63CF
    ";
    expect(alloc, &mut fifteen, rows)
}

#[test]
fn the_laws_can_be_cited(_rt: HostRuntime) {
    losses_are_told();
    words_are_those_of_the_table();
}
