// What the answers of turns tell.
ghost use Rattle.std.specs.Prelude.{◌≡◌, [], ◌<◌, ◌≤◌, ℕ, List, length, Some, IfSome, MatchResult};
ghost use Rattle.piv_model.specs.declared.answers.ApiAnswer.{ApiAnswer as Given};
ghost use Rattle.piv_rules.specs.Acts.{Replied};
ghost use Rattle.card_acts.specs.Acts.{answer_of};
ghost use Rattle.client_api.specs.Calls.{word_of, has_word, is_reply, tells_more, data_of};
ghost use Rattle.client_api.specs.Answers.{by_told, by_switch, renewed, connected};

use crate::handle::CardHandle;
use card_acts::Answer;
use piv_model::{ApiAnswer, Body, Interface, Refusal, ReplyBytes};

/// An answer without bytes.
pub fn done() -> ApiAnswer
    ensures { result ≡ ApiAnswer.Ok [] }
{
    ApiAnswer::Ok {
        body: Body::short(ReplyBytes::of(&[])),
    }
}

// The status word of a reply.
fn word(answer: &Answer) -> Option<u16>
    ensures { result ≡ word_of (answer_of answer.now) }
{
    match answer {
        Answer::Reply { body: _, sw } => Some(*sw),
        Answer::Full
        | Answer::Connected { c: _, epoch: _ }
        | Answer::Disconnected
        | Answer::Mute { epoch: _ }
        | Answer::Stale { epoch: _ }
        | Answer::NoConnection
        | Answer::Locked
        | Answer::NoChannel
        | Answer::Off
        | Answer::On
        | Answer::WasReset
        | Answer::WasCut
        | Answer::Up { took: _ } => None,
    }
}

/// It is a reply with this status word.
pub fn has(sw: u16, answer: &Answer) -> bool
    ensures { result ≡ has_word sw (answer_of answer.now) }
{
    match word(answer) {
        Some(word) => word == sw,
        None => false,
    }
}

/// It is a reply.
pub fn replied(answer: &Answer) -> bool
    ensures { result ≡ is_reply (answer_of answer.now) }
{
    word(answer).is_some()
}

/// It is a reply of which more waits: 61 XX.
pub fn has_more(answer: &Answer) -> bool
    ensures { result ≡ tells_more (word_of (answer_of answer.now)) }
{
    match word(answer) {
        Some(word) => 0x6100 <= word && word < 0x6200,
        None => false,
    }
}

/// The data of a reply, at most 256 bytes.
pub fn data(answer: &Answer) -> &[u8]
    ensures bytes { result.now ≡ data_of (answer_of answer.now) }
    ensures most { length result.now ≤ 256 }
{
    match answer {
        Answer::Reply { body, sw: _ } => body.as_slice(),
        Answer::Full
        | Answer::Connected { c: _, epoch: _ }
        | Answer::Disconnected
        | Answer::Mute { epoch: _ }
        | Answer::Stale { epoch: _ }
        | Answer::NoConnection
        | Answer::Locked
        | Answer::NoChannel
        | Answer::Off
        | Answer::On
        | Answer::WasReset
        | Answer::WasCut
        | Answer::Up { took: _ } => &[],
    }
}

/// The handle with the newer epoch that the answer may have.
pub fn renew(handle: &CardHandle, answer: &Answer) -> CardHandle
    ensures is { result ≡ renewed handle.now (answer_of answer.now) }
    ensures card { result.card ≡ handle.now.card }
{
    match answer {
        Answer::Mute { epoch } => handle.with_epoch(*epoch),
        Answer::Stale { epoch } => handle.with_epoch(*epoch),
        Answer::Full
        | Answer::Connected { c: _, epoch: _ }
        | Answer::Disconnected
        | Answer::Reply { body: _, sw: _ }
        | Answer::NoConnection
        | Answer::Locked
        | Answer::NoChannel
        | Answer::Off
        | Answer::On
        | Answer::WasReset
        | Answer::WasCut
        | Answer::Up { took: _ } => handle.same(),
    }
}

/// The handle of a connection that was opened.
pub fn opened(card: usize, interface: Interface, answer: &Answer) -> Option<CardHandle>
    ensures is { result ≡ connected card interface (answer_of answer.now) }
    ensures on { (cards : ℕ) → card < cards → IfSome result (λ x. x.card < cards) }
{
    match answer {
        Answer::Connected { c, epoch } => Some(CardHandle::new(card, *c, *epoch, interface)),
        Answer::Full
        | Answer::Disconnected
        | Answer::Reply { body: _, sw: _ }
        | Answer::Mute { epoch: _ }
        | Answer::Stale { epoch: _ }
        | Answer::NoConnection
        | Answer::Locked
        | Answer::NoChannel
        | Answer::Off
        | Answer::On
        | Answer::WasReset
        | Answer::WasCut
        | Answer::Up { took: _ } => None,
    }
}

/// The data and the word of a reply, or what is answered where there is none.
pub fn reply(answer: Answer) -> Result<(ReplyBytes, u16), ApiAnswer>
    ensures { MatchResult result
        (λ p. answer_of answer ≡ Some (Replied p.0 p.1))
        (λ a. (reply : List ℕ → ℕ → Given) → a ≡ by_told (answer_of answer) reply) }
{
    match answer {
        Answer::Reply { body, sw } => Ok((body, sw)),
        Answer::Full => Err(ApiAnswer::TranscriptFull),
        Answer::Off => Err(ApiAnswer::ConnectionFailure),
        Answer::NoChannel => Err(ApiAnswer::ConnectionFailure),
        Answer::Locked => Err(ApiAnswer::ConnectionLocked),
        Answer::NoConnection => Err(ApiAnswer::InvalidCardHandle),
        Answer::Mute { epoch: _ } => Err(ApiAnswer::CardReaderError),
        Answer::Stale { epoch: _ } => Err(ApiAnswer::CardReaderError),
        Answer::Connected { c: _, epoch: _ } => Err(done()),
        Answer::Disconnected => Err(done()),
        Answer::On => Err(done()),
        Answer::WasReset => Err(done()),
        Answer::WasCut => Err(done()),
        Answer::Up { took: _ } => Err(done()),
    }
}

/// What a reset, a cut or a power is answered.
pub fn switched(answer: Answer) -> ApiAnswer
    ensures { result ≡ by_switch (answer_of answer) }
{
    let why = match answer {
        Answer::Full => return ApiAnswer::TranscriptFull,
        Answer::Up { took } => return ApiAnswer::Done { took: Some(took) },
        Answer::Connected { c: _, epoch: _ }
        | Answer::Disconnected
        | Answer::Reply { body: _, sw: _ }
        | Answer::WasReset
        | Answer::WasCut => return ApiAnswer::Done { took: None },
        Answer::Off => Refusal::Off,
        Answer::On => Refusal::On,
        Answer::NoChannel => Refusal::NoChannel,
        Answer::Locked => Refusal::Locked,
        Answer::NoConnection => Refusal::NoConnection,
        Answer::Mute { epoch: _ } => Refusal::Mute,
        Answer::Stale { epoch: _ } => Refusal::Stale,
    };
    ApiAnswer::Refused { why }
}
