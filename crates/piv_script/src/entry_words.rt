// The words of a history's entries, read.
ghost use Rattle.line_words.specs.Words.{Gives};
ghost use Rattle.piv_script.specs.EntryReading.{connection_word, block_word, some_block as some_block_of, interface_word, took_word, refusal_word, lone_act as lone_act_of, act_with as act_with_of};

use line_words::{LineFault, read_number, read_upper};
use piv_model::{ActKind, Interface, Refusal, Took};
use std::alloc::Global;

// A number of 32 bits.
pub(crate) fn read_connection(word: &str) -> Result<u32, LineFault>
    ensures { Gives result (connection_word word.now) }
{
    let number = read_number(word)?;
    match u32::try_from(number) {
        Ok(c) => Ok(c),
        Err(_) => Err(LineFault::Malformed),
    }
}

pub(crate) fn read_interface(word: &str) -> Result<Interface, LineFault>
    ensures { Gives result (interface_word word.now) }
{
    match word {
        "contact" => Ok(Interface::Contact),
        "contactless" => Ok(Interface::Contactless),
        _ => Err(LineFault::Malformed),
    }
}

pub(crate) fn read_took(word: &str) -> Result<Took, LineFault>
    ensures { Gives result (took_word word.now) }
{
    match word {
        "nothing" => Ok(Took::Nothing),
        "spent" => Ok(Took::Spent),
        "done" => Ok(Took::Done),
        _ => Err(LineFault::Malformed),
    }
}

pub(crate) fn read_refusal(word: &str) -> Result<Refusal, LineFault>
    ensures { Gives result (refusal_word word.now) }
{
    match word {
        "locked" => Ok(Refusal::Locked),
        "nochannel" => Ok(Refusal::NoChannel),
        "off" => Ok(Refusal::Off),
        "on" => Ok(Refusal::On),
        "mute" => Ok(Refusal::Mute),
        "stale" => Ok(Refusal::Stale),
        "noconnection" => Ok(Refusal::NoConnection),
        _ => Err(LineFault::Malformed),
    }
}

pub(crate) fn lone_act(word: &str) -> Result<ActKind, LineFault>
    ensures { Gives result (lone_act_of word.now) }
{
    match word {
        "cut" => Ok(ActKind::Cut),
        "power" => Ok(ActKind::Power),
        _ => Err(LineFault::Malformed),
    }
}

pub(crate) fn act_with(word: &str, subject: &str) -> Result<ActKind, LineFault>
    ensures { Gives result (act_with_of word.now subject.now) }
{
    match word {
        "connect" => Ok(ActKind::Connect(read_interface(subject)?)),
        "disconnect" => Ok(ActKind::Disconnect(read_connection(subject)?)),
        "exchange" => Ok(ActKind::Exchange(read_connection(subject)?)),
        "reset" => Ok(ActKind::Reset(read_interface(subject)?)),
        _ => Err(LineFault::Malformed),
    }
}

pub(crate) fn read_block(alloc: Global, word: &str) -> Result<Option<[u8; 16]>, LineFault>
    ensures { Gives result (block_word word.now) }
{
    match word {
        "-" => Ok(None),
        _ => some_block(alloc, word),
    }
}

fn some_block(alloc: Global, word: &str) -> Result<Option<[u8; 16]>, LineFault>
    ensures { Gives result (some_block_of word.now) }
{
    let bytes = read_upper(alloc, word)?;
    match <[u8; 16]>::try_from(bytes.as_slice()) {
        Ok(block) => Ok(Some(block)),
        Err(_) => Err(LineFault::Malformed),
    }
}
