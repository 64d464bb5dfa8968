// The call of a line.
ghost use Rattle.std.specs.Prelude.{◌≡◌, ◌≤◌, ℕ, map, reverse, replicate, length, true, None, IfOk, Ok, Some};
ghost use Rattle.script_line.specs.Playable.{IsPlayable};
ghost use Rattle.script_line.specs.Lines.{is_key_length};
ghost use Rattle.client_api.specs.Calls.{Handle, Decided, Disconnect, Select, LogOut, Crypt, Admin, Transmit, Switch as Switched};
ghost use Rattle.client_api.specs.Makers.{connect_to, get_of, put_of};
ghost use Rattle.client_api.specs.Steps.{left};
ghost use Rattle.client_api.specs.Held.{named_of};
ghost use Rattle.client_api.specs.Readers.{reader_of, card_of};
ghost use Rattle.client_api.specs.States.{switch_of};
ghost use Rattle.client_api.specs.Playing.{Is, ALogin, handle_named, name_of, wanted, wanted_with, by_handle, reset_of, switch_card};
ghost use Rattle.client_api.specs.Players.{Starts, line_turns};

use crate::call::ApiCall;
use crate::handle::CardHandle;
use crate::make::Refused;
use crate::others::{establish_secure_messaging, generate_key_pair};
use crate::player::NamedHandle;
use crate::readers::Readers;
use crate::state::Switch;
use aes_block::Key;
use piv_model::{ApiAnswer, NoMemory};
use script_line::Line;
use std::alloc::Global;

/// The name of a line's handle; it is empty where the line has none.
pub fn handle_name(line: &Line) -> &str
    ensures { result.now ≡ name_of line.now }
{
    match line {
        Line::Connect {
            h,
            reader: _,
            shared: _,
        } => h.as_str(),
        Line::Disconnect { h } => h.as_str(),
        Line::Select { h, aid: _ } => h.as_str(),
        Line::Login { h, auth: _ } => h.as_str(),
        Line::Logout { h } => h.as_str(),
        Line::Get { h, oid: _ } => h.as_str(),
        Line::PutHex {
            h,
            oid: _,
            value: _,
        } => h.as_str(),
        Line::PutFill {
            h,
            oid: _,
            size: _,
            fill: _,
        } => h.as_str(),
        Line::Crypt {
            h,
            algorithm: _,
            key: _,
            input: _,
        } => h.as_str(),
        Line::Admin {
            h,
            algorithm: _,
            key: _,
        } => h.as_str(),
        Line::Apdu { h, bytes: _ } => h.as_str(),
        Line::Version
        | Line::Generate
        | Line::Secure
        | Line::Reset { reader: _ }
        | Line::Cut { card: _ }
        | Line::Power { card: _ } => "",
    }
}

// The newest handle under a name.
#[tactic(auto, using(crate::proofs::Making::held_laws))]
fn held(handles: &Vec<NamedHandle<'_>>, name: &str) -> Option<CardHandle>
    ensures { result ≡ handle_named (map named_of (reverse handles.now.items)) name.now }
{
    let mut left = handles.len();
    while left > 0 {
        left -= 1;
        let last = &handles[left];
        if last.name == name {
            return Some(last.handle.same());
        }
    }
    None
}

// A call that was made, or want of memory.
fn made(tried: Result<ApiCall, Refused>) -> Result<ApiCall, NoMemory>
    ensures { IfOk result (λ call. tried ≡ Ok call) }
{
    match tried {
        Ok(call) => Ok(call),
        Err(_) => Err(NoMemory),
    }
}

// The calls of lines. Each is made by itself, since a function clears the places of all the calls that it may make.
fn disconnect(handle: CardHandle) -> Result<ApiCall, NoMemory>
    ensures starts { IfOk result (λ call. Starts (Is (Disconnect handle)) call) }
    ensures few { IfOk result (λ call. left call ≤ 1) }
{
    Ok(ApiCall::disconnect(handle))
}

fn select(handle: CardHandle, aid: &[u8]) -> Result<ApiCall, NoMemory>
    requires { length aid.now ≤ 16 }
    ensures starts { IfOk result (λ call. Starts (Is (Select handle aid.now)) call) }
    ensures few { IfOk result (λ call. left call ≤ 1) }
{
    Ok(ApiCall::select(handle, aid))
}

fn log_in(alloc: Global, handle: CardHandle, auth: &[u8]) -> Result<ApiCall, NoMemory>
    ensures starts { IfOk result (λ call. Starts (ALogin handle auth.now) call) }
    ensures few { IfOk result (λ call. left call ≤ 8) }
{
    made(ApiCall::log_in(alloc, handle, auth))
}

fn log_out(handle: CardHandle) -> Result<ApiCall, NoMemory>
    ensures starts { IfOk result (λ call. Starts (Is (LogOut handle)) call) }
    ensures few { IfOk result (λ call. left call ≤ 3) }
{
    Ok(ApiCall::log_out(handle))
}

fn get(alloc: Global, handle: CardHandle, oid: &str) -> Result<ApiCall, NoMemory>
    ensures starts { IfOk result (λ call. Starts (Is (get_of handle oid.now)) call) }
    ensures few { IfOk result (λ call. left call ≤ 65) }
{
    made(ApiCall::get_data(alloc, handle, oid))
}

fn put(alloc: Global, handle: CardHandle, oid: &str, value: &[u8]) -> Result<ApiCall, NoMemory>
    requires { length value.now ≤ 16512 }
    ensures starts { IfOk result (λ call. Starts (Is (put_of handle oid.now value.now)) call) }
    ensures few { IfOk result (λ call. left call ≤ 65) }
{
    made(ApiCall::put_data(alloc, handle, oid, value))
}

fn put_fill(
    alloc: Global,
    handle: CardHandle,
    oid: &str,
    size: usize,
    fill: u8,
) -> Result<ApiCall, NoMemory>
    requires { size ≤ 16512 }
    ensures starts { IfOk result (λ call. Starts (Is (put_of handle oid.now (replicate size fill))) call) }
    ensures few { IfOk result (λ call. left call ≤ 65) }
{
    made(ApiCall::put_fill(alloc, handle, oid, size, fill))
}

fn crypt(handle: CardHandle, algorithm: u8, key: u8, input: &[u8]) -> Result<ApiCall, NoMemory>
    requires { length input.now ≤ 255 }
    ensures starts { IfOk result (λ call. Starts (Is (Crypt handle algorithm key input.now)) call) }
    ensures few { IfOk result (λ call. left call ≤ 1) }
{
    Ok(ApiCall::crypt(handle, algorithm, key, input))
}

fn admin(handle: CardHandle, algorithm: u8, key: &[u8]) -> Result<ApiCall, NoMemory>
    requires { is_key_length (length key.now) ≡ true }
    ensures starts { IfOk result (λ call. Starts (Is (Admin handle algorithm key.now)) call) }
    ensures few { IfOk result (λ call. left call ≤ 2) }
{
    match Key::new(key) {
        Some(key) => Ok(ApiCall::admin(handle, algorithm, key)),
        None => unreachable!(),
    }
}

fn transmit(alloc: Global, handle: CardHandle, bytes: &[u8]) -> Result<ApiCall, NoMemory>
    requires { length bytes.now ≤ 512 }
    ensures starts { IfOk result (λ call. Starts (Is (Transmit handle bytes.now)) call) }
    ensures few { IfOk result (λ call. left call ≤ 1) }
{
    made(ApiCall::transmit(alloc, handle, bytes))
}

// A call that is answered so without a turn.
fn answered(answer: ApiAnswer, handle: Option<CardHandle>) -> Result<ApiCall, NoMemory>
    ensures starts { IfOk result (λ call. Starts (Is (Decided answer handle)) call) }
    ensures few { IfOk result (λ call. left call ≤ 0) }
{
    Ok(ApiCall::decided(answer, handle))
}

fn version() -> Result<ApiCall, NoMemory>
    ensures starts { IfOk result (λ call. Starts (Is (Decided ApiAnswer.Version None)) call) }
    ensures few { IfOk result (λ call. left call ≤ 0) }
{
    answered(ApiAnswer::Version, None)
}

fn generate() -> Result<ApiCall, NoMemory>
    ensures starts { IfOk result (λ call. Starts (Is (Decided ApiAnswer.Unsupported None)) call) }
    ensures few { IfOk result (λ call. left call ≤ 0) }
{
    answered(generate_key_pair(), None)
}

fn secure() -> Result<ApiCall, NoMemory>
    ensures starts { IfOk result (λ call. Starts (Is (Decided ApiAnswer.Unsupported None)) call) }
    ensures few { IfOk result (λ call. left call ≤ 0) }
{
    answered(establish_secure_messaging(), None)
}

fn unknown_handle(handle: Option<CardHandle>) -> Result<ApiCall, NoMemory>
    ensures starts { IfOk result (λ call. Starts (Is (Decided ApiAnswer.InvalidCardHandle handle)) call) }
    ensures few { IfOk result (λ call. left call ≤ 0) }
{
    answered(ApiAnswer::InvalidCardHandle, handle)
}

fn connect(readers: &Readers, reader: &str, shared: bool) -> Result<ApiCall, NoMemory>
    ensures starts { IfOk result (λ call. Starts (Is (connect_to (reader_of readers.now.readers reader.now) shared)) call) }
    ensures few { IfOk result (λ call. left call ≤ 1) }
{
    Ok(ApiCall::connect_to(readers, reader, shared))
}

// A reset, a cut or a power.
fn switch_on(card: usize, switch: Switch) -> Result<ApiCall, NoMemory>
    ensures starts { IfOk result (λ call. Starts (Is (Switched card (switch_of switch))) call) }
    ensures few { IfOk result (λ call. left call ≤ 1) }
{
    Ok(ApiCall::switch(card, switch))
}

fn reset(readers: &Readers, reader: &str) -> Result<ApiCall, NoMemory>
    ensures starts { IfOk result (λ call. Starts (reset_of (reader_of readers.now.readers reader.now)) call) }
    ensures few { IfOk result (λ call. left call ≤ 1) }
{
    match readers.find(reader) {
        Some((card, interface)) => switch_on(card, Switch::Reset { interface }),
        None => answered(ApiAnswer::ConnectionFailure, None),
    }
}

fn on_card(readers: &Readers, card: &str, switch: Switch) -> Result<ApiCall, NoMemory>
    ensures starts { IfOk result (λ call. Starts (switch_card (card_of readers.now.cards card.now) (switch_of switch)) call) }
    ensures few { IfOk result (λ call. left call ≤ 1) }
{
    match readers.find_card(card) {
        Some(card) => switch_on(card, switch),
        None => answered(ApiAnswer::ConnectionFailure, None),
    }
}

// The call of a line that takes a handle.
fn call_with(alloc: Global, line: &Line, handle: CardHandle) -> Result<ApiCall, NoMemory>
    requires { IsPlayable line.now }
    ensures starts { IfOk result (λ call. Starts (wanted_with handle line.now) call) }
    ensures few { IfOk result (λ call. left call ≤ line_turns line.now) }
{
    match line {
        Line::Disconnect { h: _ } => disconnect(handle),
        Line::Select { h: _, aid } => select(handle, aid.as_slice()),
        Line::Login { h: _, auth } => log_in(alloc, handle, auth.as_slice()),
        Line::Logout { h: _ } => log_out(handle),
        Line::Get { h: _, oid } => get(alloc, handle, oid.as_str()),
        Line::PutHex { h: _, oid, value } => put(alloc, handle, oid.as_str(), value.as_slice()),
        Line::PutFill {
            h: _,
            oid,
            size,
            fill,
        } => put_fill(alloc, handle, oid.as_str(), *size as usize, *fill),
        Line::Crypt {
            h: _,
            algorithm,
            key,
            input,
        } => crypt(handle, *algorithm, *key, input.as_slice()),
        Line::Admin {
            h: _,
            algorithm,
            key,
        } => admin(handle, *algorithm, key.as_slice()),
        Line::Apdu { h: _, bytes } => transmit(alloc, handle, bytes.as_slice()),
        Line::Connect {
            h: _,
            reader: _,
            shared: _,
        }
        | Line::Version
        | Line::Generate
        | Line::Secure
        | Line::Reset { reader: _ }
        | Line::Cut { card: _ }
        | Line::Power { card: _ } => unknown_handle(Some(handle)),
    }
}

// The same where a handle stands under its name.
fn call_on(alloc: Global, line: &Line, handles: &Vec<NamedHandle<'_>>) -> Result<ApiCall, NoMemory>
    requires { IsPlayable line.now }
    ensures starts { IfOk result (λ call. Starts
        (by_handle (handle_named (map named_of (reverse handles.now.items)) (name_of line.now)) line.now) call) }
    ensures few { IfOk result (λ call. left call ≤ line_turns line.now) }
{
    match held(handles, handle_name(line)) {
        Some(handle) => call_with(alloc, line, handle),
        None => unknown_handle(None),
    }
}

/// The call of a line, where these handles are held.
pub fn call_of(
    alloc: Global,
    line: &Line,
    readers: &Readers,
    handles: &Vec<NamedHandle<'_>>,
) -> Result<ApiCall, NoMemory>
    requires { IsPlayable line.now }
    ensures starts { IfOk result (λ call. Starts
        (wanted readers.now (map named_of (reverse handles.now.items)) line.now) call) }
    ensures few { IfOk result (λ call. left call ≤ line_turns line.now) }
{
    match line {
        Line::Connect {
            h: _,
            reader,
            shared,
        } => connect(readers, reader.as_str(), *shared),
        Line::Version => version(),
        Line::Generate => generate(),
        Line::Secure => secure(),
        Line::Reset { reader } => reset(readers, reader.as_str()),
        Line::Cut { card } => on_card(readers, card.as_str(), Switch::Cut),
        Line::Power { card } => on_card(readers, card.as_str(), Switch::Power),
        Line::Disconnect { h: _ }
        | Line::Select { h: _, aid: _ }
        | Line::Login { h: _, auth: _ }
        | Line::Logout { h: _ }
        | Line::Get { h: _, oid: _ }
        | Line::PutHex {
            h: _,
            oid: _,
            value: _,
        }
        | Line::PutFill {
            h: _,
            oid: _,
            size: _,
            fill: _,
        }
        | Line::Crypt {
            h: _,
            algorithm: _,
            key: _,
            input: _,
        }
        | Line::Admin {
            h: _,
            algorithm: _,
            key: _,
        }
        | Line::Apdu { h: _, bytes: _ } => call_on(alloc, line, handles),
    }
}
