// The line of an answer.
ghost use Rattle.std.specs.Prelude.{◌≡◌, ◌≤◌, ◌+◌, ◌++◌, ◌∷◌, [], length};
ghost use Rattle.arrayvec.specs.ArrayVec.{array_vec_len};
ghost use Rattle.line_words.specs.Digits.{status_text};
ghost use Rattle.entry_text.specs.LineParts.{line_text, answer_front as answer_front_of, body_line, reply_line};
ghost use Rattle.entry_text.specs.AnswerTexts.{rule_name as rule_name_of, why_name as why_name_of, answer_name as answer_name_of, answer_line};

use crate::entry_parts::{Parts, line_end, took_name, whole_text};
use crate::short_text::{ShortText, put_dash, put_decimal, put_spaced, put_status};
use piv_model::{ApiAnswer, Refusal, Rule};

fn rule_name(rule: Rule) -> &'static str
    ensures value { result.now ≡ rule_name_of rule }
    ensures short { length result.now ≤ 12 }
{
    match rule {
        Rule::Always => "ALWAYS",
        Rule::Pin => "PIN",
        Rule::Never => "NEVER",
        Rule::Admin => "ADMIN",
        Rule::ContactUse => "CONTACT",
        Rule::Response => "RESPONSE",
    }
}

fn why_name(why: Refusal) -> &'static str
    ensures value { result.now ≡ why_name_of why }
    ensures short { length result.now ≤ 40 }
{
    match why {
        Refusal::Locked => "LOCKED",
        Refusal::NoChannel => "NOCHANNEL",
        Refusal::Off => "OFF",
        Refusal::On => "ON",
        Refusal::Mute => "MUTE",
        Refusal::Stale => "STALE",
        Refusal::NoConnection => "NOCONNECTION",
    }
}

fn answer_name(a: &ApiAnswer) -> &'static str
    ensures value { result.now ≡ answer_name_of a.now }
    ensures short { length result.now ≤ 40 }
{
    match a {
        ApiAnswer::Ok { body: _ } => "PIV_OK",
        ApiAnswer::Reply { body: _, sw: _ } => "REPLY",
        ApiAnswer::AuthenticationFailure { sw: _ } => "PIV_AUTHENTICATION_FAILURE",
        ApiAnswer::CardStatus { sw: _ } => "CARD_STATUS",
        ApiAnswer::SecurityConditions { rule: _ } => "PIV_SECURITY_CONDITIONS_NOT_SATISFIED",
        ApiAnswer::ConnectionDescriptionMalformed => "PIV_CONNECTION_DESCRIPTION_MALFORMED",
        ApiAnswer::ConnectionFailure => "PIV_CONNECTION_FAILURE",
        ApiAnswer::ConnectionLocked => "PIV_CONNECTION_LOCKED",
        ApiAnswer::TranscriptFull => "TRANSCRIPT_FULL",
        ApiAnswer::AuthenticatorMalformed => "PIV_AUTHENTICATOR_MALFORMED",
        ApiAnswer::InvalidOid => "PIV_INVALID_OID",
        ApiAnswer::InvalidCardHandle => "PIV_INVALID_CARD_HANDLE",
        ApiAnswer::CardReaderError => "PIV_CARD_READER_ERROR",
        ApiAnswer::NotSelected => "NOT_SELECTED",
        ApiAnswer::CardApplicationNotFound => "PIV_CARD_APPLICATION_NOT_FOUND",
        ApiAnswer::DataObjectNotFound => "PIV_DATA_OBJECT_NOT_FOUND",
        ApiAnswer::InsufficientCardResource => "PIV_INSUFFICIENT_CARD_RESOURCE",
        ApiAnswer::InvalidKeyrefOrAlgorithm => "PIV_INVALID_KEYREF_OR_ALGORITHM",
        ApiAnswer::InputBytesMalformed => "PIV_INPUT_BYTES_MALFORMED",
        ApiAnswer::Unsupported => "UNSUPPORTED",
        ApiAnswer::Version => "VERSION",
        ApiAnswer::Done { took: _ } => "DONE",
        ApiAnswer::Refused { why } => why_name(*why),
    }
}

// The number and the name.
#[tactic(auto, using(crate::proofs::DecimalSteps::twenty_digits))]
fn answer_front(number: usize, name: &str) -> ShortText
    requires { length name.now ≤ 40 }
    ensures text { result.items ≡ answer_front_of number name.now }
    ensures room { array_vec_len result ≤ 61 }
{
    let mut out = ShortText::new();
    put_decimal(&mut out, number as u64);
    put_spaced(&mut out, name);
    out
}

fn with_word(front: ShortText, word: &str) -> Parts<'static>
    requires room { array_vec_len front ≤ 61 }
    requires short { length word.now ≤ 20 }
    ensures { line_text result ≡ front.items ++ 32 ∷ word.now ++ 10 ∷ [] }
{
    let mut front = front;
    put_spaced(&mut front, word);
    whole_text(front)
}

fn with_status(front: ShortText, sw: u16) -> Parts<'static>
    requires room { array_vec_len front ≤ 61 }
    ensures { line_text result ≡ front.items ++ 32 ∷ status_text sw ++ 10 ∷ [] }
{
    let mut front = front;
    put_status(&mut front, sw);
    whole_text(front)
}

// A front, bytes, and a back.
fn with_body(front: ShortText, body: &[u8]) -> Parts<'_>
    requires { array_vec_len front ≤ 61 }
    ensures { line_text result ≡ body_line front.items body.now }
{
    match body {
        [] => whole_text(front),
        _ => {
            let mut front = front;
            put_spaced(&mut front, "");
            Parts {
                front,
                body,
                back: line_end(),
            }
        }
    }
}

fn reply(front: ShortText, body: &[u8], sw: u16) -> Parts<'_>
    requires { array_vec_len front ≤ 61 }
    ensures { line_text result ≡ reply_line front.items body.now sw }
{
    let mut front = front;
    put_dash(&mut front, body);
    let mut back = ShortText::new();
    put_status(&mut back, sw);
    back.push(b'\n');
    Parts { front, body, back }
}

/// The line of an answer.
pub(crate) fn answer_parts(number: usize, a: &ApiAnswer) -> Parts<'_>
    ensures { line_text result ≡ answer_line number a.now }
{
    let front = answer_front(number, answer_name(a));
    match a {
        ApiAnswer::Ok { body } => with_body(front, body.as_slice()),
        ApiAnswer::Reply { body, sw } => reply(front, body.as_slice(), *sw),
        ApiAnswer::AuthenticationFailure { sw } => with_status(front, *sw),
        ApiAnswer::CardStatus { sw } => with_status(front, *sw),
        ApiAnswer::SecurityConditions { rule } => with_word(front, rule_name(*rule)),
        ApiAnswer::Version => with_word(front, "800-73-4 Client API"),
        ApiAnswer::Done { took } => match took {
            Some(took) => with_word(front, took_name(*took)),
            None => whole_text(front),
        },
        _ => whole_text(front),
    }
}
