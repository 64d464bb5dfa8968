// The calls over a port whose answers stand in a list. The commands are spelled after SP 800-73-4 part 2.
ghost use Rattle.std.specs.Prelude.{◌≡◌, ◌≤◌, length, IfOk};
ghost use Rattle.client_api.specs.Steps.{IsOn};

use crate::handle::CardHandle;
use crate::listed::{Listed, Told};
use crate::{ApiCall, Readers, run};
use aes_block::Key;
use entry_text::print_answer;
use piv_model::Interface::{Contact, Contactless};
use piv_ports::MemSink;
use std::alloc::Global;
use std::test::Fail;

const CHUID: &str = "2.16.840.1.101.3.7.2.48.0";

const PRINTED: &str = "2.16.840.1.101.3.7.2.48.1";

const DISCOVERY: &str = "2.16.840.1.101.3.7.2.96.80";

const DONE: Told = Told::Reply(0x9000, 0);

pub(crate) fn contact() -> CardHandle
    ensures { result.card ≡ 0 }
{
    CardHandle::new(0, 1, 0, Contact)
}

fn contactless() -> CardHandle
    ensures { result.card ≡ 0 }
{
    CardHandle::new(0, 1, 0, Contactless)
}

fn holds(test: bool, why: &'static str) -> Result<(), Fail> {
    test.then_some(()).ok_or(why)?;
    Ok(())
}

// Runs a call to its end: what it sent, and its answer as it is printed. Each answer of the list is used.
pub(crate) fn plays(
    alloc: Global,
    call: ApiCall,
    answers: &[Told],
    sent: &str,
    want: &str,
) -> Result<(), Fail>
    requires { IsOn 1 call }
{
    let mut port = Listed {
        answers,
        next: 0,
        sent: Vec::new(alloc),
    };
    let (answer, _) = run(call, &mut port);
    holds(port.next == answers.len(), "another number of turns")?;
    let bytes = hex::encode_upper(alloc, &port.sent)?;
    holds(bytes.as_str() == sent, "other commands")?;
    let mut sink = MemSink::new(alloc, 40_000, 40_000, Vec::new(alloc)).or(Err("memory"))?;
    print_answer(1, &answer, &mut sink).or(Err("not printed"))?;
    holds(sink.taken() == want.as_bytes(), "another answer")
}

pub(crate) fn get(alloc: Global, handle: CardHandle, oid: &str) -> Result<ApiCall, Fail>
    requires { handle.card ≡ 0 }
    ensures { IfOk result (λ call. IsOn 1 call) }
{
    match ApiCall::get_data(alloc, handle, oid) {
        Ok(call) => Ok(call),
        Err(_) => Err(Fail::from("memory")),
    }
}

pub(crate) fn put(alloc: Global, oid: &str, value: &[u8]) -> Result<ApiCall, Fail>
    requires { length value.now ≤ 16512 }
    ensures { IfOk result (λ call. IsOn 1 call) }
{
    match ApiCall::put_data(alloc, contact(), oid, value) {
        Ok(call) => Ok(call),
        Err(_) => Err(Fail::from("memory")),
    }
}

fn log_in(alloc: Global, auth: &[u8]) -> Result<ApiCall, Fail>
    ensures { IfOk result (λ call. IsOn 1 call) }
{
    match ApiCall::log_in(alloc, contact(), auth) {
        Ok(call) => Ok(call),
        Err(_) => Err(Fail::from("memory")),
    }
}

#[test]
fn select_sends_a_name_and_gives_the_template(rt: HostRuntime) -> Result<(), Fail> {
    let a = rt.alloc();
    let select = ApiCall::select(contact(), &[]);
    plays(
        a,
        select,
        &[Told::Reply(0x9000, 3)],
        "00A4040000",
        "1 PIV_OK 010203\n",
    )?;
    let select = ApiCall::select(contact(), &[0xA0, 1]);
    let absent = "1 PIV_CARD_APPLICATION_NOT_FOUND\n";
    plays(
        a,
        select,
        &[Told::Reply(0x6A82, 0)],
        "00A4040002A00100",
        absent,
    )?;
    let select = ApiCall::select(contact(), &[]);
    plays(
        a,
        select,
        &[Told::Mute(1)],
        "00A4040000",
        "1 PIV_CARD_READER_ERROR\n",
    )
}

#[test]
fn a_logout_goes_on_to_its_third_turn_but_under_idle(rt: HostRuntime) -> Result<(), Fail> {
    let a = rt.alloc();
    let out = "0020FF80";
    let both = "0020FF8000A4040005F049444C4500";
    let all = "0020FF8000A4040005F049444C450000A404000BA00000030800001000010000";
    let refused = Told::Reply(0x6982, 0);
    let idle = Told::Reply(0x6D00, 0);
    plays(
        a,
        ApiCall::log_out(contact()),
        &[refused, DONE, DONE],
        all,
        "1 PIV_OK\n",
    )?;
    plays(
        a,
        ApiCall::log_out(contact()),
        &[idle],
        out,
        "1 NOT_SELECTED\n",
    )?;
    plays(
        a,
        ApiCall::log_out(contact()),
        &[DONE, idle, DONE],
        all,
        "1 NOT_SELECTED\n",
    )?;
    let another = [DONE, DONE, Told::Reply(0x6A82, 0)];
    plays(
        a,
        ApiCall::log_out(contact()),
        &another,
        all,
        "1 CARD_STATUS 6A82\n",
    )?;
    plays(
        a,
        ApiCall::log_out(contact()),
        &[Told::Full],
        out,
        "1 TRANSCRIPT_FULL\n",
    )?;
    plays(
        a,
        ApiCall::log_out(contact()),
        &[DONE, Told::Full],
        both,
        "1 TRANSCRIPT_FULL\n",
    )?;
    let third = [DONE, DONE, Told::Full];
    plays(
        a,
        ApiCall::log_out(contact()),
        &third,
        all,
        "1 TRANSCRIPT_FULL\n",
    )
}

#[test]
fn a_login_ends_at_the_first_refusal(rt: HostRuntime) -> Result<(), Fail> {
    let a = rt.alloc();
    // Eight authenticators of one byte, and one more.
    let one = [0x67, 6, 0x81, 1, 0x31, 0x83, 1, 0x80];
    let mut auth = Vec::new(a);
    for _ in 0..8 {
        auth.extend_from_slice(&one)?;
    }
    let sent = "002000800131";
    let eight = "002000800131002000800131002000800131002000800131\
                 002000800131002000800131002000800131002000800131";
    plays(a, log_in(a, &auth)?, &[DONE; 8], eight, "1 PIV_OK\n")?;
    let refused = "1 PIV_AUTHENTICATION_FAILURE 63C2\n";
    plays(
        a,
        log_in(a, &auth)?,
        &[Told::Reply(0x63C2, 0)],
        sent,
        refused,
    )?;
    plays(
        a,
        log_in(a, &auth)?,
        &[Told::Reply(0x6D00, 0)],
        sent,
        "1 NOT_SELECTED\n",
    )?;
    auth.extend_from_slice(&one)?;
    plays(
        a,
        log_in(a, &auth)?,
        &[],
        "",
        "1 PIV_AUTHENTICATOR_MALFORMED\n",
    )
}

#[test]
fn an_object_is_joined_of_its_pieces(rt: HostRuntime) -> Result<(), Fail> {
    let a = rt.alloc();
    let first = "00CB3FFF055C035FC10200";
    let rest = "00CB3FFF055C035FC1020000C0000000";
    let two = [Told::Reply(0x6102, 3), Told::Reply(0x9000, 2)];
    plays(
        a,
        get(a, contact(), CHUID)?,
        &two,
        rest,
        "1 PIV_OK 0102030102\n",
    )?;
    let nothing = [Told::Reply(0x6100, 0), DONE];
    plays(a, get(a, contact(), CHUID)?, &nothing, rest, "1 PIV_OK\n")?;
    let absent = "1 PIV_DATA_OBJECT_NOT_FOUND\n";
    plays(
        a,
        get(a, contact(), CHUID)?,
        &[Told::Reply(0x6A82, 0)],
        first,
        absent,
    )?;
    plays(a, get(a, contact(), "1.2")?, &[], "", "1 PIV_INVALID_OID\n")?;
    plays(
        a,
        get(a, contact(), CHUID)?,
        &[Told::NoConnection],
        first,
        "1 PIV_INVALID_CARD_HANDLE\n",
    )?;
    let refused = [Told::Reply(0x6982, 0)];
    let printed = "00CB3FFF055C035FC10900";
    let pin = "1 PIV_SECURITY_CONDITIONS_NOT_SATISFIED PIN\n";
    plays(a, get(a, contact(), PRINTED)?, &refused, printed, pin)?;
    let never = "1 PIV_SECURITY_CONDITIONS_NOT_SATISFIED NEVER\n";
    plays(a, get(a, contactless(), PRINTED)?, &refused, printed, never)
}

#[test]
fn sixty_four_rests_are_asked_for_at_most(rt: HostRuntime) -> Result<(), Fail> {
    let mut port = Listed {
        answers: &[Told::Reply(0x61FF, 0); 70],
        next: 0,
        sent: Vec::new(rt.alloc()),
    };
    let _ = run(get(rt.alloc(), contact(), CHUID)?, &mut port);
    assert_eq!(rt; port.next, 65);
    Ok(())
}

// A value of so many bytes goes in pieces of 255 bytes; the element of printed information has a header of 7 to 9 bytes.
fn put_in_pieces(alloc: Global, size: usize, header: usize) -> Result<(), Fail>
    requires size { size ≤ 16512 }
    requires header { header ≤ 9 }
{
    let value = vec![in alloc; 0x5A; size]?;
    let mut port = Listed {
        answers: &[DONE; 65],
        next: 0,
        sent: Vec::new(alloc),
    };
    let _ = run(put(alloc, PRINTED, &value)?, &mut port);
    let pieces = (size + header + 254) / 255;
    holds(port.next == pieces, "another number of pieces")?;
    holds(
        port.sent.len() == size + header + 5 * pieces,
        "another length",
    )?;
    let last = port.sent.get(260 * (pieces.saturating_sub(1)));
    holds(last == Some(&0x00), "another class of the last piece")?;
    let first = if pieces == 1 { 0x00 } else { 0x10 };
    holds(
        port.sent.first() == Some(&first),
        "another class of the first piece",
    )
}

#[test]
fn a_value_is_put_in_pieces(rt: HostRuntime) -> Result<(), Fail> {
    let a = rt.alloc();
    put_in_pieces(a, 0, 7)?;
    put_in_pieces(a, 254, 8)?;
    put_in_pieces(a, 255, 8)?;
    put_in_pieces(a, 256, 9)?;
    put_in_pieces(a, 16_384, 9)?;
    put_in_pieces(a, 16_512, 9)
}

#[test]
fn a_put_ends_at_the_first_refusal(rt: HostRuntime) -> Result<(), Fail> {
    let a = rt.alloc();
    let sent = "00DB3FFF085C035FC109530101";
    let room = "1 PIV_INSUFFICIENT_CARD_RESOURCE\n";
    plays(
        a,
        put(a, PRINTED, &[1])?,
        &[Told::Reply(0x6A84, 0)],
        sent,
        room,
    )?;
    let admin = "1 PIV_SECURITY_CONDITIONS_NOT_SATISFIED ADMIN\n";
    plays(
        a,
        put(a, PRINTED, &[1])?,
        &[Told::Reply(0x6982, 0)],
        sent,
        admin,
    )?;
    plays(
        a,
        put(a, DISCOVERY, &[1])?,
        &[DONE],
        "00DB3FFF037E0101",
        "1 PIV_OK\n",
    )?;
    plays(a, put(a, "", &[1])?, &[], "", "1 PIV_INVALID_OID\n")
}

#[test]
fn uses_of_keys_have_their_own_answers(rt: HostRuntime) -> Result<(), Fail> {
    let a = rt.alloc();
    let none = "0087089E00";
    let crypt = ApiCall::crypt(contact(), 8, 0x9E, &[7]);
    plays(
        a,
        crypt,
        &[Told::Reply(0x9000, 2)],
        "0087089E010700",
        "1 PIV_OK 0102\n",
    )?;
    let crypt = ApiCall::crypt(contact(), 8, 0x9E, &[]);
    let key = "1 PIV_INVALID_KEYREF_OR_ALGORITHM\n";
    plays(a, crypt, &[Told::Reply(0x6A86, 0)], none, key)?;
    let crypt = ApiCall::crypt(contact(), 8, 0x9E, &[]);
    plays(
        a,
        crypt,
        &[Told::Reply(0x6A80, 0)],
        none,
        "1 PIV_INPUT_BYTES_MALFORMED\n",
    )?;
    let refused = [Told::Reply(0x6982, 0)];
    let response = "1 PIV_SECURITY_CONDITIONS_NOT_SATISFIED RESPONSE\n";
    plays(
        a,
        ApiCall::crypt(contact(), 8, 0x9E, &[]),
        &refused,
        none,
        response,
    )?;
    let side = "1 PIV_SECURITY_CONDITIONS_NOT_SATISFIED CONTACT\n";
    plays(
        a,
        ApiCall::crypt(contactless(), 8, 0x9E, &[]),
        &refused,
        none,
        side,
    )
}

// The key of FIPS 197's example vectors, C.1 to C.3, at this length, and its cipher of a block of zeros where the card's
// reply has fewer than 16 bytes.
fn admin_answers(alloc: Global, algorithm: u8, size: usize) -> Result<(), Fail>
    requires { size ≤ 32 }
{
    let mut bytes = [0; 32];
    for k in 0..32 {
        bytes[k] = k as u8;
    }
    let key = Key::new(&bytes[..size]).ok_or("no key")?;
    let block = key.encrypt(&[0; 16]);
    let mut port = Listed {
        answers: &[DONE, DONE],
        next: 0,
        sent: Vec::new(alloc),
    };
    let _ = run(ApiCall::admin(contact(), algorithm, key), &mut port);
    holds(port.next == 2, "another number of turns")?;
    holds(port.sent.get(3) == Some(&0x9B), "another key")?;
    holds(port.sent.get(19..35) == Some(&block), "another response")
}

#[test]
fn the_administration_key_has_three_lengths(rt: HostRuntime) -> Result<(), Fail> {
    admin_answers(rt.alloc(), 0x08, 16)?;
    admin_answers(rt.alloc(), 0x0A, 24)?;
    admin_answers(rt.alloc(), 0x0C, 32)
}

pub(crate) fn moves<T: Send>(x: T) -> T {
    x
}

fn shares<T: Sync>(x: T) -> T {
    x
}

#[test]
fn calls_and_handles_move_and_readers_are_shared(rt: HostRuntime) -> Result<(), Fail> {
    let handle = moves(contact());
    assert_eq!(rt; handle.epoch(), 0);
    let _ = moves(ApiCall::log_out(handle));
    let readers = shares(Readers::new(rt.alloc()));
    assert!(rt; readers.find("front").is_none());
    Ok(())
}
