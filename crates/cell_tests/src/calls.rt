// Calls of the client API on one card, whose owner makes each turn.
ghost use Rattle.std.specs.Prelude.{◌≡◌, ◌<◌, ◌≤◌, ℕ, IfOk, IfSome};
ghost use Rattle.client_api.specs.Readers.{AreReadersOn};
ghost use Rattle.client_api.specs.Steps.{IsOn};

use crate::cells::plain_cell;
use crate::histories::expect_history;
use aes_block::Key;
use card_cell::CardCell;
use cell_port::CellPort;
use client_api::{ApiCall, CardHandle, Port, Readers, run};
use entry_text::print_answer;
use memory_store::MemoryStore;
use piv_model::Interface::{Contact, Contactless};
use piv_ports::MemSink;
use std::alloc::Global;
use std::marker::Brand;
use std::process::Abort;
use std::test::Fail;

fn bytes(alloc: Global, word: &str) -> Result<Vec<u8>, Fail> {
    Ok(hex::decode(alloc, word).or(Err("no hexadecimal text"))?)
}

fn byte(alloc: Global, word: Option<&str>) -> Result<u8, Fail> {
    let bytes = bytes(alloc, word.ok_or("no byte")?)?;
    Ok(*bytes.first().ok_or("no byte")?)
}

fn readers(alloc: Global) -> Result<Readers, Fail>
    ensures { IfOk result (λ readers. (cards : ℕ) → 1 ≤ cards → AreReadersOn cards readers.readers) }
{
    let mut readers = Readers::new(alloc);
    readers.add("front", 0, Contact)?;
    readers.add("gate", 0, Contactless)?;
    Ok(readers)
}

// The description of a reader, of which there are two.
fn description(reader: &str) -> &'static [u8] {
    match reader {
        "front" => b"\x7F\x21\x07\x81\x05front",
        "gate" => b"\x7F\x21\x06\x81\x04gate",
        "none" => b"\x7F\x21\x06\x81\x04none",
        _ => b"\x7F\x21\x00",
    }
}

fn connect(alloc: Global, reader: &str, shared: bool) -> Result<ApiCall, Fail>
    ensures { IfOk result (λ call. (cards : ℕ) → 1 ≤ cards → IsOn cards call) }
{
    let readers = readers(alloc)?;
    Ok(ApiCall::connect(&readers, description(reader), shared))
}

fn select(alloc: Global, handle: CardHandle, aid: &str) -> Result<ApiCall, Fail>
    ensures { IfOk result (λ call. (cards : ℕ) → handle.card < cards → IsOn cards call) }
{
    let aid = bytes(alloc, aid)?;
    if aid.len() > 16 {
        return Err(Fail::from("too long"));
    }
    Ok(ApiCall::select(handle, &aid))
}

fn log_in(alloc: Global, handle: CardHandle, authenticators: &str) -> Result<ApiCall, Fail>
    ensures { IfOk result (λ call. (cards : ℕ) → handle.card < cards → IsOn cards call) }
{
    let authenticators = bytes(alloc, authenticators)?;
    match ApiCall::log_in(alloc, handle, &authenticators) {
        Ok(call) => Ok(call),
        Err(_) => Err(Fail::from("memory")),
    }
}

fn get(alloc: Global, handle: CardHandle, oid: &str) -> Result<ApiCall, Fail>
    ensures { IfOk result (λ call. (cards : ℕ) → handle.card < cards → IsOn cards call) }
{
    match ApiCall::get_data(alloc, handle, oid) {
        Ok(call) => Ok(call),
        Err(_) => Err(Fail::from("memory")),
    }
}

// An object identifier and a value.
fn put(alloc: Global, handle: CardHandle, about: &str) -> Result<ApiCall, Fail>
    ensures { IfOk result (λ call. (cards : ℕ) → handle.card < cards → IsOn cards call) }
{
    let (oid, value) = about.split_once(' ').ok_or("no value")?;
    let value = bytes(alloc, value)?;
    if value.len() > 16_512 {
        return Err(Fail::from("too long"));
    }
    match ApiCall::put_data(alloc, handle, oid, &value) {
        Ok(call) => Ok(call),
        Err(_) => Err(Fail::from("memory")),
    }
}

// An algorithm, a key, and perhaps an input.
fn crypt(alloc: Global, handle: CardHandle, about: &str) -> Result<ApiCall, Fail>
    ensures { IfOk result (λ call. (cards : ℕ) → handle.card < cards → IsOn cards call) }
{
    let mut words = about.split_whitespace();
    let algorithm = byte(alloc, words.next())?;
    let key = byte(alloc, words.next())?;
    let input = bytes(alloc, words.next().unwrap_or(""))?;
    if input.len() > 255 {
        return Err(Fail::from("too long"));
    }
    Ok(ApiCall::crypt(handle, algorithm, key, &input))
}

// An algorithm and a key.
fn admin(alloc: Global, handle: CardHandle, about: &str) -> Result<ApiCall, Fail>
    ensures { IfOk result (λ call. (cards : ℕ) → handle.card < cards → IsOn cards call) }
{
    let (algorithm, key) = about.split_once(' ').ok_or("no key")?;
    let algorithm = byte(alloc, Some(algorithm))?;
    let key = Key::new(&bytes(alloc, key)?).ok_or("no key")?;
    Ok(ApiCall::admin(handle, algorithm, key))
}

fn transmit(alloc: Global, handle: CardHandle, apdu: &str) -> Result<ApiCall, Fail>
    ensures { IfOk result (λ call. (cards : ℕ) → handle.card < cards → IsOn cards call) }
{
    let apdu = bytes(alloc, apdu)?;
    if apdu.len() > 512 {
        return Err(Fail::from("too long"));
    }
    match ApiCall::transmit(alloc, handle, &apdu) {
        Ok(call) => Ok(call),
        Err(_) => Err(Fail::from("memory")),
    }
}

// A call with a handle, by its name and what it is about.
fn call_with(alloc: Global, handle: CardHandle, name: &str, about: &str) -> Result<ApiCall, Fail>
    ensures { IfOk result (λ call. (cards : ℕ) → handle.card < cards → IsOn cards call) }
{
    match name {
        "disconnect" => Ok(ApiCall::disconnect(handle)),
        "select" => select(alloc, handle, about),
        "login" => log_in(alloc, handle, about),
        "logout" => Ok(ApiCall::log_out(handle)),
        "get" => get(alloc, handle, about),
        "put" => put(alloc, handle, about),
        "crypt" => crypt(alloc, handle, about),
        "admin" => admin(alloc, handle, about),
        "transmit" => transmit(alloc, handle, about),
        _ => Err(Fail::from("no call")),
    }
}

// The same, and a connect, which leaves the handle that there is.
fn call_of(alloc: Global, handle: &mut Option<CardHandle>, words: &str) -> Result<ApiCall, Fail>
    ensures kept { (cards : ℕ) → IfSome handle.old (λ h. h.card < cards) → IfSome handle.new (λ h. h.card < cards) }
    ensures on { IfOk result (λ call. (cards : ℕ) → 1 ≤ cards → IfSome handle.old (λ h. h.card < cards)
        → IsOn cards call) }
{
    let (name, about) = words.split_once(' ').unwrap_or((words, ""));
    if name == "shared" {
        return connect(alloc, about, true);
    }
    if name == "exclusive" {
        return connect(alloc, about, false);
    }
    match handle.take() {
        Some(handle) => call_with(alloc, handle, name, about),
        None => Err(Fail::from("no handle")),
    }
}

// A call is answered so, and hands this handle back.
fn answered<P: Port>(
    rt: &impl Abort,
    alloc: Global,
    port: &mut P,
    call: ApiCall,
    want: &str,
) -> Result<Option<CardHandle>, Fail>
    requires { IsOn (P.cards port.old) call }
    ensures cards { P.cards port.new ≡ P.cards port.old }
    ensures on { IfOk result (λ handle. IfSome handle (λ h. h.card < P.cards port.new)) }
{
    let (answer, handle) = run(call, port);
    let mut sink = MemSink::new(alloc, 1000, 1000, Vec::new(alloc)).or(Err("memory"))?;
    print_answer(1, &answer, &mut sink).or(Err("not printed"))?;
    let line = format!(in alloc; "1 {want}\n")?;
    assert!(rt; sink.taken() == line.as_bytes(), "{want}");
    Ok(handle)
}

// What a call of so many turns is answered where so many are left, which it uses.
fn told<'a>(left: &mut usize, turns: usize, want: &'a str) -> &'a str {
    match left.checked_sub(turns) {
        Some(rest) => {
            *left = rest;
            want
        }
        None => {
            *left = 0;
            "TRANSCRIPT_FULL"
        }
    }
}

// Each row has the number of its call's turns, the call, and its answer behind `=`, which is another where the turns end.
fn play<P: Port>(
    rt: &impl Abort,
    alloc: Global,
    port: &mut P,
    turns: usize,
    rows: &str,
) -> Result<(), Fail>
    requires { 1 ≤ P.cards port.old }
{
    let mut left = turns;
    let mut handle: Option<CardHandle> = None;
    for row in rows.trim().lines() {
        let (row, want) = row.trim().split_once('=').ok_or("no answer")?;
        let (made, words) = row.trim().split_once(' ').ok_or("no turns")?;
        let made = made.parse::<usize>().or(Err("no number"))?;
        let call = call_of(alloc, &mut handle, words)?;
        let want = told(&mut left, made, want.trim());
        if let Some(newer) = answered(rt, alloc, port, call, want)? {
            handle = Some(newer);
        }
    }
    Ok(())
}

// The plain card with so many turns, after the calls of such rows.
fn played(
    rt: &impl Abort,
    alloc: Global,
    turns: usize,
    rows: &str,
) -> Result<Vec<CardCell<MemoryStore>>, Fail> {
    let cells = vec![in alloc; plain_cell(alloc, turns)?]?;
    let mut port: CellPort<MemoryStore, Brand> = CellPort::new(cells);
    play(rt, alloc, &mut port, turns, rows)?;
    Ok(port.into_cells())
}

// The same, and the lines of the card's history.
fn expect_calls(rt: &impl Abort, alloc: Global, rows: &str, history: &str) -> Result<(), Fail> {
    let cells = played(rt, alloc, 30, rows)?;
    match cells.first() {
        Some(cell) => expect_history(rt, alloc, cell, history),
        None => Err(Fail::from("no card")),
    }
}

#[test]
fn calls_are_answered_by_the_words_of_a_card(rt: HostRuntime) -> Result<(), Fail> {
    let rows = "
        1 shared front = PIV_OK
        1 select A00000030800001000 = PIV_OK 61114F0600001000010079074F05A000000308
        1 login 670D8108313233343536FFFF830180 = PIV_OK
        2 login 670D8108313233343536FFFF830180670D8108393939393939FFFF830180 = PIV_AUTHENTICATION_FAILURE 63C2
        1 get 2.16.840.1.101.3.7.2.48.1 = PIV_SECURITY_CONDITIONS_NOT_SATISFIED PIN
        1 select A000000001 = PIV_CARD_APPLICATION_NOT_FOUND
        3 logout = PIV_OK
        1 get 2.16.840.1.101.3.7.1.219.0 = PIV_DATA_OBJECT_NOT_FOUND
        1 crypt 07 9E = PIV_INVALID_KEYREF_OR_ALGORITHM
        1 crypt 08 9E 7C028100 = PIV_INPUT_BYTES_MALFORMED
        1 put 2.16.840.1.101.3.7.2.48.1 01 = PIV_SECURITY_CONDITIONS_NOT_SATISFIED ADMIN
        1 transmit 00 = REPLY - 6700
        1 disconnect = PIV_OK
        1 get 2.16.840.1.101.3.7.2.48.1 = PIV_INVALID_CARD_HANDLE
    ";
    let history = "
        opened 1 contact shared
        call 1 A4 04 00 A00000030800001000 9000 -
        call 1 20 00 80 313233343536FFFF 9000 -
        call 1 20 00 80 313233343536FFFF 9000 -
        call 1 20 00 80 393939393939FFFF 63C2 -
        call 1 CB 3F FF 5C035FC109 6982 -
        call 1 A4 04 00 A000000001 6A82 -
        call 1 20 FF 80 - 9000 -
        call 1 A4 04 00 F049444C45 9000 -
        call 1 A4 04 00 A000000308000010000100 9000 -
        call 1 CB 3F FF 5C035FC107 6A82 -
        call 1 87 07 9E - 6A86 -
        call 1 87 08 9E 7C028100 6A80 -
        call 1 DB 3F FF 5C035FC109530101 6982 -
        bad 1 6700
        closed 1
        note exchange 1 noconnection
    ";
    expect_calls(&rt, rt.alloc(), rows, history)
}

#[test]
fn what_is_not_of_its_form_makes_no_turn(rt: HostRuntime) -> Result<(), Fail> {
    let rows = "
        0 shared malformed = PIV_CONNECTION_DESCRIPTION_MALFORMED
        0 shared none = PIV_CONNECTION_FAILURE
        1 shared front = PIV_OK
        0 login 670D81 = PIV_AUTHENTICATOR_MALFORMED
        0 get 1.2.3 = PIV_INVALID_OID
        0 put 1.2.3 01 = PIV_INVALID_OID
    ";
    expect_calls(&rt, rt.alloc(), rows, "opened 1 contact shared")
}

#[test]
fn a_contactless_reader_gives_what_is_free(rt: HostRuntime) -> Result<(), Fail> {
    let rows = "
        1 shared gate = PIV_OK
        1 select A000000308000010000100 = PIV_OK 61114F0600001000010079074F05A000000308
        1 get 2.16.840.1.101.3.7.2.48.0 = PIV_OK 53043E00FE00
        1 get 2.16.840.1.101.3.7.1.219.0 = PIV_SECURITY_CONDITIONS_NOT_SATISFIED NEVER
        1 login 670D8108313233343536FFFF830180 = PIV_AUTHENTICATION_FAILURE 6982
        0 get 1.2.3 = PIV_INVALID_OID
    ";
    let history = "
        opened 1 contactless shared
        call 1 A4 04 00 A000000308000010000100 9000 -
        call 1 CB 3F FF 5C035FC102 9000 -
        call 1 CB 3F FF 5C035FC107 6982 -
        call 1 20 00 80 313233343536FFFF 6982 -
    ";
    expect_calls(&rt, rt.alloc(), rows, history)
}

#[test]
fn an_exclusive_connection_waits_for_the_others(rt: HostRuntime) -> Result<(), Fail> {
    let rows = "
        1 shared front = PIV_OK
        1 exclusive front = PIV_CONNECTION_LOCKED
        1 disconnect = PIV_OK
        1 get 2.16.840.1.101.3.7.2.48.1 = PIV_INVALID_CARD_HANDLE
        1 exclusive front = PIV_OK
    ";
    let history = "
        opened 1 contact shared
        note connect contact locked
        closed 1
        note exchange 1 noconnection
        opened 2 contact exclusive
    ";
    expect_calls(&rt, rt.alloc(), rows, history)
}

// The turns end at each turn of these calls, which make fourteen.
#[test]
fn a_call_is_answered_full_at_each_of_its_turns(rt: HostRuntime) -> Result<(), Fail> {
    let alloc = rt.alloc();
    let value = "C3".repeat(alloc, 300)?;
    let rows = format!(in alloc;
        "
        1 shared front = PIV_OK
        1 select A00000030800001000 = PIV_OK 61114F0600001000010079074F05A000000308
        2 login 670D8108313233343536FFFF830180670D8108313233343536FFFF830180 = PIV_OK
        2 admin 08 101112131415161718191A1B1C1D1E1F = PIV_OK
        2 put 2.16.840.1.101.3.7.2.1.1 {value} = PIV_OK
        2 get 2.16.840.1.101.3.7.2.1.1 = PIV_OK 5382012C{value}
        3 logout = PIV_OK
        1 disconnect = PIV_OK
    "
    )?;
    played(&rt, alloc, 0, "1 shared front = PIV_OK")?;
    for turns in 1..16 {
        let cells = played(&rt, alloc, turns, &rows)?;
        let entries = cells.first().map(|cell| cell.history().len());
        assert_eq!(rt; entries, Some(turns.min(14)));
    }
    Ok(())
}
