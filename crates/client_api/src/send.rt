// The next act of a call.
ghost use Rattle.std.specs.Prelude.{◌≡◌, ℕ, ◌≤◌, ◌<◌, Some, IsSome, length, [], true, false, slice_get};
ghost use Rattle.piv_objects.specs.Authenticators.{Credential};
ghost use Rattle.card_acts.specs.Acts.{act_of, answer_of, is_answer_to, IsShort};
ghost use Rattle.client_api.specs.Steps.{IsOn, Sent};
ghost use Rattle.client_api.specs.Calls.{Asked, exchange as exchange_of, LogIn, LogOut, Get, Admin};
ghost use Rattle.client_api.specs.Machine.{asked, At};
ghost use Rattle.client_api.specs.States.{going_of, IsSound, admin_at, switch_of};

use crate::commands::{command, piece, response, tag_list, verify};
use crate::handle::CardHandle;
use crate::port::Port;
use crate::state::{Pin, State, Switch};
use aes_block::Key;
use card_acts::{Act, Answer};
use piv_model::application_names::{FULL, IDLE};
use piv_model::{ObjectId, ReplyBytes};

fn act_for(switch: Switch) -> Act<'static>
    ensures act { act_of result ≡ switch_of switch }
    ensures short { IsShort result }
{
    match switch {
        Switch::Reset { interface } => Act::Reset { interface },
        Switch::Cut => Act::Cut,
        Switch::Power => Act::Power,
    }
}

fn exchange<P: Port>(port: &mut P, handle: &CardHandle, bytes: &[u8]) -> Answer
    requires card { handle.now.card < P.cards port.old }
    requires short { length bytes.now ≤ 512 }
    ensures sent { (x : Asked) → exchange_of handle.now bytes.now ≡ Some x →
        Sent (P.stands port.old) (P.stands port.new) (P.seen port.new) (P.turns port.new) x (answer_of result) }
    ensures answer { (x : Asked) → exchange_of handle.now bytes.now ≡ Some x →
        is_answer_to x.act (answer_of result) ≡ true }
    ensures cards { P.cards port.new ≡ P.cards port.old }
    ensures bases { P.bases port.new ≡ P.bases port.old }
    ensures turns { (k : ℕ) → P.turns port.new k ≡ P.turns port.old k }
    ensures seen { (k : ℕ) → P.seen port.old k ≤ P.seen port.new k }
{
    port.turn(
        handle.card(),
        Act::Exchange {
            c: handle.connection(),
            epoch: handle.epoch(),
            bytes,
        },
    )
}

// The PIN of a turn.
fn pin_at(pins: &Vec<Pin>, turn: usize) -> &Pin
    requires { turn < length pins.now.items }
    ensures { slice_get pins.now.items turn ≡ Some result.now }
{
    &pins[turn]
}

fn send_log_in<P: Port>(port: &mut P, handle: &CardHandle, pins: &Vec<Pin>, turn: usize) -> Answer
    requires card { handle.now.card < P.cards port.old }
    requires turn { turn < length pins.now.items }
    requires small { (j : ℕ) (c : Credential) → slice_get pins.now.items j ≡ Some c → length c.pin ≤ 255 }
    ensures sent { (x : Asked) → asked (At (LogIn handle.now pins.now.items) turn [] false) ≡ Some x →
        Sent (P.stands port.old) (P.stands port.new) (P.seen port.new) (P.turns port.new) x (answer_of result) }
    ensures answer { (x : Asked) → asked (At (LogIn handle.now pins.now.items) turn [] false) ≡ Some x →
        is_answer_to x.act (answer_of result) ≡ true }
    ensures cards { P.cards port.new ≡ P.cards port.old }
    ensures bases { P.bases port.new ≡ P.bases port.old }
    ensures turns { (k : ℕ) → P.turns port.new k ≡ P.turns port.old k }
    ensures seen { (k : ℕ) → P.seen port.old k ≤ P.seen port.new k }
{
    exchange(port, handle, &verify(pin_at(pins, turn)))
}

// The acts of a logout.
fn send_log_out<P: Port>(port: &mut P, handle: &CardHandle, turn: usize) -> Answer
    requires turn { turn ≤ 2 }
    requires card { handle.now.card < P.cards port.old }
    ensures sent { (x : Asked) → asked (At (LogOut handle.now) turn [] false) ≡ Some x →
        Sent (P.stands port.old) (P.stands port.new) (P.seen port.new) (P.turns port.new) x (answer_of result) }
    ensures answer { (x : Asked) → asked (At (LogOut handle.now) turn [] false) ≡ Some x →
        is_answer_to x.act (answer_of result) ≡ true }
    ensures cards { P.cards port.new ≡ P.cards port.old }
    ensures bases { P.bases port.new ≡ P.bases port.old }
    ensures turns { (k : ℕ) → P.turns port.new k ≡ P.turns port.old k }
    ensures seen { (k : ℕ) → P.seen port.old k ≤ P.seen port.new k }
{
    if turn == 0 {
        exchange(port, handle, &[0x00, 0x20, 0xFF, 0x80])
    } else if turn == 1 {
        exchange(port, handle, &command(0xA4, 0x04, 0x00, &IDLE))
    } else {
        exchange(port, handle, &command(0xA4, 0x04, 0x00, &FULL))
    }
}

fn send_get<P: Port>(port: &mut P, handle: &CardHandle, object: ObjectId, turn: usize) -> Answer
    requires card { handle.now.card < P.cards port.old }
    ensures sent { (x : Asked) → asked (At (Get handle.now object) turn [] false) ≡ Some x →
        Sent (P.stands port.old) (P.stands port.new) (P.seen port.new) (P.turns port.new) x (answer_of result) }
    ensures answer { (x : Asked) → asked (At (Get handle.now object) turn [] false) ≡ Some x →
        is_answer_to x.act (answer_of result) ≡ true }
    ensures cards { P.cards port.new ≡ P.cards port.old }
    ensures bases { P.bases port.new ≡ P.bases port.old }
    ensures turns { (k : ℕ) → P.turns port.new k ≡ P.turns port.old k }
    ensures seen { (k : ℕ) → P.seen port.old k ≤ P.seen port.new k }
{
    if turn == 0 {
        exchange(
            port,
            handle,
            &command(0xCB, 0x3F, 0xFF, tag_list(object).as_slice()),
        )
    } else {
        exchange(port, handle, &command(0xC0, 0x00, 0x00, &[]))
    }
}

fn send_admin<P: Port>(
    port: &mut P,
    handle: &CardHandle,
    algorithm: u8,
    key: &Key,
    first: &Option<ReplyBytes>,
) -> Answer
    requires card { handle.now.card < P.cards port.old }
    ensures sent { (x : Asked) → asked (admin_at (Admin handle.now algorithm key.now) first.now) ≡ Some x →
        Sent (P.stands port.old) (P.stands port.new) (P.seen port.new) (P.turns port.new) x (answer_of result) }
    ensures answer { (x : Asked) → asked (admin_at (Admin handle.now algorithm key.now) first.now) ≡ Some x →
        is_answer_to x.act (answer_of result) ≡ true }
    ensures cards { P.cards port.new ≡ P.cards port.old }
    ensures bases { P.bases port.new ≡ P.bases port.old }
    ensures turns { (k : ℕ) → P.turns port.new k ≡ P.turns port.old k }
    ensures seen { (k : ℕ) → P.seen port.old k ≤ P.seen port.new k }
{
    match first {
        None => exchange(
            port,
            handle,
            &command(0x87, algorithm, 0x9B, &[0x7C, 0x02, 0x81, 0x00]),
        ),
        Some(body) => {
            let out = response(key, body.as_slice());
            exchange(
                port,
                handle,
                &command(0x87, algorithm, 0x9B, out.as_slice()),
            )
        }
    }
}

/// Makes the next act of a call.
pub fn send<P: Port>(state: &State, port: &mut P) -> Answer
    requires sound { IsSound state.now }
    requires asks { IsSome (asked (going_of state.now)) }
    requires on { IsOn (P.cards port.old) (going_of state.now) }
    ensures sent { (x : Asked) → asked (going_of state.now) ≡ Some x →
        Sent (P.stands port.old) (P.stands port.new) (P.seen port.new) (P.turns port.new) x (answer_of result) }
    ensures answer { (x : Asked) → asked (going_of state.now) ≡ Some x → is_answer_to x.act (answer_of result) ≡ true }
    ensures cards { P.cards port.new ≡ P.cards port.old }
    ensures bases { P.bases port.new ≡ P.bases port.old }
    ensures turns { (k : ℕ) → P.turns port.new k ≡ P.turns port.old k }
    ensures seen { (k : ℕ) → P.seen port.old k ≤ P.seen port.new k }
{
    match state {
        State::Connect {
            card,
            interface,
            shared,
        } => {
            port.turn(
                *card,
                Act::Connect {
                    interface: *interface,
                    shared: *shared,
                },
            )
        }
        State::Disconnect { handle } => {
            port.turn(
                handle.card(),
                Act::Disconnect {
                    c: handle.connection(),
                },
            )
        }
        State::Select { handle, aid } => {
            exchange(port, handle, &command(0xA4, 0x04, 0x00, aid.as_slice()))
        }
        State::LogIn { handle, pins, turn } => send_log_in(port, handle, pins, *turn),
        State::LogOut {
            handle,
            turn,
            idle: _,
        } => send_log_out(port, handle, *turn),
        State::Get {
            handle,
            object,
            turn,
            body: _,
        } => send_get(port, handle, *object, *turn),
        State::Put {
            handle,
            element,
            turn,
        } => { exchange(port, handle, &piece(&element[255 * *turn..])) }
        State::Crypt {
            handle,
            algorithm,
            key,
            input,
        } => {
            exchange(
                port,
                handle,
                &command(0x87, *algorithm, *key, input.as_slice()),
            )
        }
        State::Admin {
            handle,
            algorithm,
            key,
            first,
        } => { send_admin(port, handle, *algorithm, key, first) }
        State::Transmit { handle, bytes } => exchange(port, handle, bytes.as_slice()),
        State::Switch { card, switch } => port.turn(*card, act_for(*switch)),
        State::Ended {
            answer: _,
            handle: _,
        }
        | State::Over => unreachable!(),
    }
}
