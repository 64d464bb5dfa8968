// Writing texts to a sink.
ghost use Rattle.std.specs.Prelude.{◌≡◌, ◌≤◌, length, OnOk};
ghost use Rattle.hex.specs.Hex.{encode_upper};
ghost use Rattle.piv_model.specs.Entries.{entry_of};
ghost use Rattle.entry_text.specs.EntryTexts.{IsEntry, IsHistoryText, entry_line, history_text};
ghost use Rattle.entry_text.specs.LineParts.{line_text, number_line};
ghost use Rattle.entry_text.specs.AnswerTexts.{answer_line};
ghost use Rattle.piv_ports.specs.Writes.{Writes};

use crate::answer_parts::answer_parts;
use crate::entry_parts::{Parts, entry_parts};
use crate::short_text::{ShortText, first_word, put_bytes, put_decimal};
use piv_model::{ApiAnswer, Entry, History};
use piv_ports::{Sink, WriteStop, write_all};

// Writes bytes, two digits each, 48 bytes at a time.
fn write_hex<K: Sink>(sink: &mut K, bytes: &[u8]) -> Result<(), WriteStop>
    ensures { Writes K.taken K.flushed K.faults (encode_upper bytes.now) sink.old sink.new result }
{
    let mut rest = bytes;
    'pieces: while !rest.is_empty() {
        let (piece, more) = rest.split_at(rest.len().min(48));
        let mut text = ShortText::new();
        put_bytes(&mut text, piece);
        write_all(sink, &text)?;
        rest = more;
    }
    Ok(())
}

// Writes a line's front, its bytes, two digits each, and its back.
fn print_parts<K: Sink>(parts: &Parts<'_>, sink: &mut K) -> Result<(), WriteStop>
    ensures { Writes K.taken K.flushed K.faults (line_text parts.now) sink.old sink.new result }
{
    write_all(sink, &parts.front)?;
    write_hex(sink, parts.body)?;
    write_all(sink, &parts.back)
}

pub(crate) fn print_entry<K: Sink>(entry: Entry<'_>, sink: &mut K) -> Result<(), WriteStop>
    ensures text { Writes K.taken K.flushed K.faults (entry_line (entry_of entry.entry)) sink.old sink.new result }
    ensures fits { IsEntry (entry_of entry.entry) }
{
    print_parts(&entry_parts(entry), sink)
}

/// Prints an answer behind the number of its line.
pub fn print_answer<K: Sink>(number: usize, a: &ApiAnswer, sink: &mut K) -> Result<(), WriteStop>
    ensures { Writes K.taken K.flushed K.faults (answer_line number a.now) sink.old sink.new result }
{
    print_parts(&answer_parts(number, a), sink)
}

/// Prints a history, a line for each entry, the oldest first.
pub fn print_history<K: Sink>(h: &History, sink: &mut K) -> Result<(), WriteStop>
    ensures text { Writes K.taken K.flushed K.faults (history_text h.now.past) sink.old sink.new result }
    // What is printed whole can be read back, since each number fits its type.
    ensures readable { OnOk result (IsHistoryText (history_text h.now.past) h.now.past) }
{
    'entries: for k in 0..h.len() {
        print_entry(h.entry(k), sink)?;
    }
    Ok(())
}

#[tactic(auto, using(crate::proofs::DecimalSteps::twenty_digits))]
fn number_text(word: &str, number: u64) -> ShortText
    requires { length word.now ≤ 12 }
    ensures { result.items ≡ number_line word.now number }
{
    let mut line = first_word(word);
    line.push(b' ');
    put_decimal(&mut line, number);
    line.push(b'\n');
    line
}

/// Prints a line of a word, which has at most 12 letters, and a number.
pub fn print_number<K: Sink>(word: &str, number: u64, sink: &mut K) -> Result<(), WriteStop>
    requires { length word.now ≤ 12 }
    ensures { Writes K.taken K.flushed K.faults (number_line word.now number) sink.old sink.new result }
{
    write_all(sink, &number_text(word, number))
}
