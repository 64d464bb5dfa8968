// Bytes as words of upper case digits.
ghost use Rattle.line_words.specs.Words.{Gives};
ghost use Rattle.line_words.specs.Digits.{some_upper as some_upper_of, upper_word, upper_byte, status_word, body_word};

use crate::fault::LineFault;
use crate::text::Bytes;
use crate::words::decode;
use std::alloc::Global;

/// Bytes: an even number of upper case digits.
#[tactic(auto, unfolding(crate::specs::Digits::upper_word))]
pub fn read_upper(alloc: Global, word: &str) -> Result<Bytes, LineFault>
    ensures { Gives result (upper_word word.now) }
{
    let bytes = decode(alloc, word)?;
    let text = hex::encode_upper(alloc, bytes.as_slice())?;
    if text.as_str() == word {
        Ok(bytes)
    } else {
        Err(LineFault::Malformed)
    }
}

/// One byte: two upper case digits.
pub fn read_upper_byte(alloc: Global, word: &str) -> Result<u8, LineFault>
    ensures { Gives result (upper_byte word.now) }
{
    let bytes = read_upper(alloc, word)?;
    match bytes.as_slice() {
        [byte] => Ok(*byte),
        _ => Err(LineFault::Malformed),
    }
}

/// A status word: four upper case digits.
pub fn read_status(alloc: Global, word: &str) -> Result<u16, LineFault>
    ensures { Gives result (status_word word.now) }
{
    let bytes = read_upper(alloc, word)?;
    match bytes.as_slice() {
        [high, low] => Ok(u16::from(*high) * 256 + u16::from(*low)),
        _ => Err(LineFault::Malformed),
    }
}

/// The data of a command: upper case digits, or a dash for none.
pub fn read_body(alloc: Global, word: &str) -> Result<Bytes, LineFault>
    ensures { Gives result (body_word word.now) }
{
    match word {
        "-" => Ok(Bytes::new(Vec::new(alloc))),
        _ => some_upper(alloc, word),
    }
}

// Bytes of which there are some.
fn some_upper(alloc: Global, word: &str) -> Result<Bytes, LineFault>
    ensures { Gives result (some_upper_of word.now) }
{
    let bytes = read_upper(alloc, word)?;
    match bytes.as_slice() {
        [] => Err(LineFault::Malformed),
        _ => Ok(bytes),
    }
}
