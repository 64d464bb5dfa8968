// Where an answer takes a call.
ghost use Rattle.std.specs.Prelude.{◌≡◌, [], ◌++◌, slice_get, ◌<◌, ◌≤◌, length, vec_capacity, ◌+◌, ◌*◌, ℕ, Some, List, Bool, true, false};
ghost use Rattle.piv_rules.specs.Acts.{CardAct};
ghost use Rattle.piv_objects.specs.Authenticators.{Credential};
ghost use Rattle.card_acts.specs.Acts.{answer_of};
ghost use Rattle.client_api.specs.Calls.{Connect, Disconnect, Select, LogIn, LogOut, Get, Put, Crypt, Admin, Transmit, Switch, has_word, data_of};
ghost use Rattle.client_api.specs.Answers.{by_last, renewed};
ghost use Rattle.client_api.specs.Steps.{IsOn};
ghost use Rattle.client_api.specs.Machine.{next as next_of, At, Ended};
ghost use Rattle.client_api.specs.States.{going_of, IsSound, admin_at};

use crate::answers::{
    administered, connecting, disconnected, enciphered, got, logged_in, logged_out, put, selected,
    transmitted,
};
use crate::handle::CardHandle;
use crate::state::{Pin, State};
use crate::told::{data, has, has_more, opened, renew, replied, switched};
use aes_block::Key;
use card_acts::Answer;
use piv_model::{Interface, ObjectId, ReplyBytes};

fn take_log_in(handle: CardHandle, pins: Vec<Pin>, turn: usize, answer: Answer) -> State
    requires turn { turn < length pins.items }
    requires small { (j : ℕ) (c : Credential) → slice_get pins.items j ≡ Some c → length c.pin ≤ 255 }
    ensures sound { IsSound result }
    ensures next { going_of result ≡ next_of (At (LogIn handle pins.items) turn [] false) (answer_of answer) }
    ensures on { (cards : ℕ) → handle.card < cards → IsOn cards (going_of result) }
{
    if has(0x9000, &answer) && turn + 1 < pins.len() {
        State::LogIn {
            handle,
            pins,
            turn: turn + 1,
        }
    } else {
        let handle = renew(&handle, &answer);
        State::Ended {
            answer: logged_in(answer),
            handle: Some(handle),
        }
    }
}

fn take_log_out(handle: CardHandle, turn: usize, idle: bool, answer: Answer) -> State
    requires { turn ≤ 2 }
    ensures sound { IsSound result }
    ensures next { going_of result ≡ next_of (At (LogOut handle) turn [] idle) (answer_of answer) }
    ensures on { (cards : ℕ) → handle.card < cards → IsOn cards (going_of result) }
{
    let on = if turn == 0 {
        replied(&answer) && !has(0x6D00, &answer)
    } else if turn == 1 {
        replied(&answer)
    } else {
        false
    };
    if on {
        let idle = idle || has(0x6D00, &answer);
        State::LogOut {
            handle,
            turn: turn + 1,
            idle,
        }
    } else {
        let handle = renew(&handle, &answer);
        State::Ended {
            answer: logged_out(idle, answer),
            handle: Some(handle),
        }
    }
}

fn push_data(body: &mut Vec<u8>, answer: &Answer)
    requires { length body.old.items + 256 ≤ vec_capacity body.old }
    ensures items { body.new.items ≡ body.old.items ++ data_of (answer_of answer.now) }
    ensures len { length body.new.items ≤ length body.old.items + 256 }
    ensures room { vec_capacity body.old ≤ vec_capacity body.new }
{
    body.extend_from_slice(data(answer)).unwrap();
}

fn take_get(
    handle: CardHandle,
    object: ObjectId,
    turn: usize,
    mut body: Vec<u8>,
    answer: Answer,
) -> State
    requires { (turn ≤ 64) × (length body.items ≤ 256 * turn) × (16640 ≤ vec_capacity body) }
    ensures sound { IsSound result }
    ensures next { going_of result ≡ next_of (At (Get handle object) turn body.items false) (answer_of answer) }
    ensures on { (cards : ℕ) → handle.card < cards → IsOn cards (going_of result) }
{
    push_data(&mut body, &answer);
    if has_more(&answer) && turn < 64 {
        State::Get {
            handle,
            object,
            turn: turn + 1,
            body,
        }
    } else {
        let after = renew(&handle, &answer);
        let answer = got(&handle, object, body, answer);
        State::Ended {
            answer,
            handle: Some(after),
        }
    }
}

fn take_put(handle: CardHandle, element: Vec<u8>, turn: usize, answer: Answer) -> State
    requires { (255 * turn < length element.items) × (length element.items ≤ 16574) }
    ensures sound { IsSound result }
    ensures next { going_of result ≡ next_of (At (Put handle element.items) turn [] false) (answer_of answer) }
    ensures on { (cards : ℕ) → handle.card < cards → IsOn cards (going_of result) }
{
    if has(0x9000, &answer) && 255 * (turn + 1) < element.len() {
        State::Put {
            handle,
            element,
            turn: turn + 1,
        }
    } else {
        let handle = renew(&handle, &answer);
        State::Ended {
            answer: put(answer),
            handle: Some(handle),
        }
    }
}

fn take_admin(
    handle: CardHandle,
    algorithm: u8,
    key: Key,
    first: Option<ReplyBytes>,
    answer: Answer,
) -> State
    ensures sound { IsSound result }
    ensures next { going_of result ≡ next_of (admin_at (Admin handle algorithm key) first) (answer_of answer) }
    ensures on { (cards : ℕ) → handle.card < cards → IsOn cards (going_of result) }
{
    match first {
        Some(_) => end_admin(handle, answer),
        None => {
            if has(0x9000, &answer) {
                State::Admin {
                    handle,
                    algorithm,
                    key,
                    first: data_of_reply(answer),
                }
            } else {
                end_admin(handle, answer)
            }
        }
    }
}

fn end_admin(handle: CardHandle, answer: Answer) -> State
    ensures sound { IsSound result }
    ensures next { (a : ℕ) (k all : List ℕ) → going_of result ≡ Ended
        (by_last (Admin handle a k) all false (answer_of answer)) (Some (renewed handle (answer_of answer))) }
    ensures on { (cards : ℕ) → handle.card < cards → IsOn cards (going_of result) }
{
    let renewed = renew(&handle, &answer);
    let ended = administered(&handle, answer);
    State::Ended {
        answer: ended,
        handle: Some(renewed),
    }
}

// The data of a reply.
fn data_of_reply(answer: Answer) -> Option<ReplyBytes>
    ensures { has_word 0x9000 (answer_of answer) ≡ true → result ≡ Some (data_of (answer_of answer)) }
{
    match answer {
        Answer::Reply { body, sw: _ } => Some(body),
        Answer::Full
        | Answer::Connected { c: _, epoch: _ }
        | Answer::Disconnected
        | Answer::Mute { epoch: _ }
        | Answer::Stale { epoch: _ }
        | Answer::NoConnection
        | Answer::Locked
        | Answer::NoChannel
        | Answer::Off
        | Answer::On
        | Answer::WasReset
        | Answer::WasCut
        | Answer::Up { took: _ } => None,
    }
}

fn take_connect(card: usize, interface: Interface, answer: Answer) -> State
    ensures sound { IsSound result }
    ensures next { (shared : Bool) →
        going_of result ≡ next_of (At (Connect card interface shared) 0 [] false) (answer_of answer) }
    ensures on { (cards : ℕ) → card < cards → IsOn cards (going_of result) }
{
    let handle = opened(card, interface, &answer);
    State::Ended {
        answer: connecting(answer),
        handle,
    }
}

fn take_disconnect(handle: CardHandle, answer: Answer) -> State
    ensures sound { IsSound result }
    ensures next { going_of result ≡ next_of (At (Disconnect handle) 0 [] false) (answer_of answer) }
    ensures on { (cards : ℕ) → handle.card < cards → IsOn cards (going_of result) }
{
    let after = renew(&handle, &answer);
    State::Ended {
        answer: disconnected(answer),
        handle: Some(after),
    }
}

fn take_select(handle: CardHandle, answer: Answer) -> State
    ensures sound { IsSound result }
    ensures next { (aid : List ℕ) →
        going_of result ≡ next_of (At (Select handle aid) 0 [] false) (answer_of answer) }
    ensures on { (cards : ℕ) → handle.card < cards → IsOn cards (going_of result) }
{
    let after = renew(&handle, &answer);
    State::Ended {
        answer: selected(answer),
        handle: Some(after),
    }
}

fn take_crypt(handle: CardHandle, answer: Answer) -> State
    ensures sound { IsSound result }
    ensures next { (algorithm key : ℕ) (input : List ℕ) →
        going_of result ≡ next_of (At (Crypt handle algorithm key input) 0 [] false) (answer_of answer) }
    ensures on { (cards : ℕ) → handle.card < cards → IsOn cards (going_of result) }
{
    let after = renew(&handle, &answer);
    let answer = enciphered(&handle, answer);
    State::Ended {
        answer,
        handle: Some(after),
    }
}

fn take_transmit(handle: CardHandle, bytes: Vec<u8>, answer: Answer) -> State
    ensures sound { IsSound result }
    ensures next { going_of result ≡ next_of (At (Transmit handle bytes.items) 0 [] false) (answer_of answer) }
    ensures on { (cards : ℕ) → handle.card < cards → IsOn cards (going_of result) }
{
    drop(bytes);
    let after = renew(&handle, &answer);
    State::Ended {
        answer: transmitted(answer),
        handle: Some(after),
    }
}

fn take_switch(answer: Answer) -> State
    ensures sound { IsSound result }
    ensures next { (card : ℕ) (act : CardAct) →
        going_of result ≡ next_of (At (Switch card act) 0 [] false) (answer_of answer) }
    ensures on { (cards : ℕ) → IsOn cards (going_of result) }
{
    State::Ended {
        answer: switched(answer),
        handle: None,
    }
}

/// Where an answer takes a call.
pub fn take(state: State, answer: Answer) -> State
    requires { IsSound state }
    ensures sound { IsSound result }
    ensures next { going_of result ≡ next_of (going_of state) (answer_of answer) }
    ensures on { (cards : ℕ) → IsOn cards (going_of state) → IsOn cards (going_of result) }
{
    match state {
        State::Connect {
            card,
            interface,
            shared: _,
        } => take_connect(card, interface, answer),
        State::Disconnect { handle } => take_disconnect(handle, answer),
        State::Select { handle, aid: _ } => take_select(handle, answer),
        State::LogIn { handle, pins, turn } => take_log_in(handle, pins, turn, answer),
        State::LogOut { handle, turn, idle } => take_log_out(handle, turn, idle, answer),
        State::Get {
            handle,
            object,
            turn,
            body,
        } => take_get(handle, object, turn, body, answer),
        State::Put {
            handle,
            element,
            turn,
        } => take_put(handle, element, turn, answer),
        State::Crypt {
            handle,
            algorithm: _,
            key: _,
            input: _,
        } => take_crypt(handle, answer),
        State::Admin {
            handle,
            algorithm,
            key,
            first,
        } => take_admin(handle, algorithm, key, first, answer),
        State::Transmit { handle, bytes } => take_transmit(handle, bytes, answer),
        State::Switch { card: _, switch: _ } => take_switch(answer),
        State::Ended { answer, handle } => State::Ended { answer, handle },
        State::Over => State::Over,
    }
}
