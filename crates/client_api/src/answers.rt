// What each call answers after its last turn.
ghost use Rattle.std.specs.Prelude.{◌≡◌, [], ℕ, List, false, Bool};
ghost use Rattle.piv_model.specs.declared.kinds.Interface.{Interface as Side};
ghost use Rattle.piv_objects.specs.Authenticators.{Credential};
ghost use Rattle.card_acts.specs.Acts.{answer_of};
ghost use Rattle.client_api.specs.Calls.{Handle, Connect, Disconnect, Select, LogIn, LogOut, Get, Put, Crypt, Admin, Transmit};
ghost use Rattle.client_api.specs.Answers.{plain as plain_of, key_rule, by_key, by_last};

use crate::handle::CardHandle;
use crate::told::{done, reply};
use card_acts::Answer;
use piv_model::status_words::{
    INCORRECT_DATA, INCORRECT_P1_P2, INSTRUCTION_NOT_SUPPORTED, NOT_ENOUGH_MEMORY, NOT_FOUND,
    SECURITY_STATUS_NOT_SATISFIED, SUCCESS,
};
use piv_model::{ApiAnswer, Body, Interface, ObjectId, ReplyBytes, Rule, read_rule};

fn plain(body: Body, sw: u16) -> ApiAnswer
    ensures { result ≡ plain_of body sw }
{
    if sw == SUCCESS {
        ApiAnswer::Ok { body }
    } else {
        ApiAnswer::CardStatus { sw }
    }
}

// An answer whose data, if any, aren't given.
fn without_data(sw: u16) -> ApiAnswer
    ensures { result ≡ plain_of [] sw }
{
    plain(Body::short(ReplyBytes::of(&[])), sw)
}

// The rule that the use of a key asks.
fn rule_of_key(interface: Interface) -> Rule
    ensures { result ≡ key_rule interface }
{
    match interface {
        Interface::Contactless => Rule::ContactUse,
        Interface::Contact => Rule::Response,
    }
}

fn of_key(handle: &CardHandle, body: Body, sw: u16) -> ApiAnswer
    ensures { result ≡ by_key handle.now body sw }
{
    if sw == SECURITY_STATUS_NOT_SATISFIED {
        ApiAnswer::SecurityConditions {
            rule: rule_of_key(handle.interface()),
        }
    } else if sw == INCORRECT_P1_P2 {
        ApiAnswer::InvalidKeyrefOrAlgorithm
    } else if sw == INCORRECT_DATA {
        ApiAnswer::InputBytesMalformed
    } else {
        plain(body, sw)
    }
}

/// pivConnect.
pub fn connecting(answer: Answer) -> ApiAnswer
    ensures { (card : ℕ) (side : Side) (shared : Bool) (all : List ℕ) →
        result ≡ by_last (Connect card side shared) all false (answer_of answer) }
{
    match reply(answer) {
        Err(told) => told,
        Ok((_, sw)) => without_data(sw),
    }
}

/// pivDisconnect.
pub fn disconnected(answer: Answer) -> ApiAnswer
    ensures { (h : Handle) (all : List ℕ) → result ≡ by_last (Disconnect h) all false (answer_of answer) }
{
    match reply(answer) {
        Err(told) => told,
        Ok((_, sw)) => without_data(sw),
    }
}

/// pivSelectCardApplication.
pub fn selected(answer: Answer) -> ApiAnswer
    ensures { (h : Handle) (aid all : List ℕ) → result ≡ by_last (Select h aid) all false (answer_of answer) }
{
    match reply(answer) {
        Err(told) => told,
        Ok((body, sw)) => {
            if sw == INSTRUCTION_NOT_SUPPORTED {
                ApiAnswer::NotSelected
            } else if sw == NOT_FOUND {
                ApiAnswer::CardApplicationNotFound
            } else {
                plain(Body::short(body), sw)
            }
        }
    }
}

/// pivLogIntoCardApplication.
pub fn logged_in(answer: Answer) -> ApiAnswer
    ensures { (h : Handle) (list : List Credential) (all : List ℕ) →
        result ≡ by_last (LogIn h list) all false (answer_of answer) }
{
    match reply(answer) {
        Err(told) => told,
        Ok((_, sw)) => {
            if sw == INSTRUCTION_NOT_SUPPORTED {
                ApiAnswer::NotSelected
            } else if sw == SUCCESS {
                done()
            } else {
                ApiAnswer::AuthenticationFailure { sw }
            }
        }
    }
}

/// pivLogoutOfCardApplication; `idle` where an earlier turn was answered 6D 00.
pub fn logged_out(idle: bool, answer: Answer) -> ApiAnswer
    ensures { (h : Handle) (all : List ℕ) → result ≡ by_last (LogOut h) all idle (answer_of answer) }
{
    match reply(answer) {
        Err(told) => told,
        Ok((_, sw)) => {
            if idle || sw == INSTRUCTION_NOT_SUPPORTED {
                ApiAnswer::NotSelected
            } else {
                without_data(sw)
            }
        }
    }
}

// The bytes that a call joined. Those that one reply could hold are kept as such, so that the memory is free again.
fn joined(all: Vec<u8>) -> Body
    ensures { result ≡ all.items }
{
    if all.len() <= 256 {
        Body::short(ReplyBytes::of(&all))
    } else {
        Body::long(all)
    }
}

/// pivGetData; `all` are the data of all replies.
pub fn got(handle: &CardHandle, object: ObjectId, all: Vec<u8>, answer: Answer) -> ApiAnswer
    ensures { result ≡ by_last (Get handle.now object) all.items false (answer_of answer) }
{
    match reply(answer) {
        Err(told) => told,
        Ok((_, sw)) => {
            if sw == INSTRUCTION_NOT_SUPPORTED {
                ApiAnswer::NotSelected
            } else if sw == SECURITY_STATUS_NOT_SATISFIED {
                ApiAnswer::SecurityConditions {
                    rule: read_rule(object, handle.interface()),
                }
            } else if sw == NOT_FOUND {
                ApiAnswer::DataObjectNotFound
            } else {
                plain(joined(all), sw)
            }
        }
    }
}

/// pivPutData.
pub fn put(answer: Answer) -> ApiAnswer
    ensures { (h : Handle) (element all : List ℕ) →
        result ≡ by_last (Put h element) all false (answer_of answer) }
{
    match reply(answer) {
        Err(told) => told,
        Ok((_, sw)) => {
            if sw == INSTRUCTION_NOT_SUPPORTED {
                ApiAnswer::NotSelected
            } else if sw == SECURITY_STATUS_NOT_SATISFIED {
                ApiAnswer::SecurityConditions { rule: Rule::Admin }
            } else if sw == NOT_ENOUGH_MEMORY {
                ApiAnswer::InsufficientCardResource
            } else {
                without_data(sw)
            }
        }
    }
}

/// pivCrypt.
pub fn enciphered(handle: &CardHandle, answer: Answer) -> ApiAnswer
    ensures { (algorithm key : ℕ) (input all : List ℕ) →
        result ≡ by_last (Crypt handle.now algorithm key input) all false (answer_of answer) }
{
    match reply(answer) {
        Err(told) => told,
        Ok((body, sw)) => {
            if sw == INSTRUCTION_NOT_SUPPORTED {
                ApiAnswer::NotSelected
            } else {
                of_key(handle, Body::short(body), sw)
            }
        }
    }
}

/// The login by the administration key.
pub fn administered(handle: &CardHandle, answer: Answer) -> ApiAnswer
    ensures { (algorithm : ℕ) (key all : List ℕ) →
        result ≡ by_last (Admin handle.now algorithm key) all false (answer_of answer) }
{
    match reply(answer) {
        Err(told) => told,
        Ok((_, sw)) => {
            if sw == INSTRUCTION_NOT_SUPPORTED {
                ApiAnswer::NotSelected
            } else {
                of_key(handle, Body::short(ReplyBytes::of(&[])), sw)
            }
        }
    }
}

/// A transmitted APDU.
pub fn transmitted(answer: Answer) -> ApiAnswer
    ensures { (h : Handle) (bytes all : List ℕ) →
        result ≡ by_last (Transmit h bytes) all false (answer_of answer) }
{
    match reply(answer) {
        Err(told) => told,
        Ok((body, sw)) => ApiAnswer::Reply {
            body: Body::short(body),
            sw,
        },
    }
}
