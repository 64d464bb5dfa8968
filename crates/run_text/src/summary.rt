// The summary of a run.
ghost use Rattle.std.specs.Prelude.{◌≡◌, ◌+◌, ◌<◌, ◌^◌};
ghost use Rattle.piv_model.specs.Entries.{entry_of};
ghost use Rattle.piv_ports.specs.Writes.{Writes};
ghost use Rattle.run_text.specs.Summaries.{word_of as word_in, grants, refuses, is_call, is_granted as is_granted_of, is_refused as is_refused_of, number_of, numbers_text, summary_text};

use entry_text::print_number;
use piv_model::{Entry, History};
use piv_ports::{Sink, WriteStop};

// How many commands were answered 90 00, and how many otherwise.
#[derive(Drop)]
struct Counts {
    granted: u64,
    refused: u64,
}

fn word_of(entry: Entry<'_>) -> Option<u16>
    ensures { result ≡ word_in (entry_of entry.entry) }
{
    match entry {
        Entry::Call {
            c: _,
            command: _,
            sw,
            block: _,
        } => Some(sw),
        _ => None,
    }
}

fn is_granted(word: Option<u16>) -> bool
    ensures { result ≡ grants word }
{
    match word {
        Some(sw) => sw == 0x9000,
        None => false,
    }
}

fn is_refused(word: Option<u16>) -> bool
    ensures { result ≡ refuses word }
{
    match word {
        Some(sw) => sw != 0x9000,
        None => false,
    }
}

fn count_calls(history: &History) -> Counts
    ensures granted { result.granted ≡ number_of is_granted_of history.now.past }
    ensures refused { result.refused ≡ number_of is_refused_of history.now.past }
    ensures calls { result.granted + result.refused ≡ number_of is_call history.now.past }
    ensures few { number_of is_call history.now.past < 2 ^ 64 }
{
    let mut granted = 0;
    let mut refused = 0;
    'entries: for k in 0..history.len() {
        let word = word_of(history.entry(k));
        granted += u64::from(is_granted(word));
        refused += u64::from(is_refused(word));
    }
    Counts { granted, refused }
}

fn print_numbers<K: Sink>(
    lines: u64,
    entries: u64,
    calls: u64,
    granted: u64,
    refused: u64,
    sink: &mut K,
) -> Result<(), WriteStop>
    ensures { Writes K.taken K.flushed K.faults (numbers_text lines entries calls granted refused) sink.old sink.new result }
{
    print_number("lines", lines, sink)?;
    print_number("entries", entries, sink)?;
    print_number("calls", calls, sink)?;
    print_number("granted", granted, sink)?;
    print_number("refused", refused, sink)
}

/// Prints how many lines there were, how many entries a history has, how many commands were executed, and how many of
/// these were answered 90 00 and how many otherwise.
pub fn print_summary<K: Sink>(lines: u64, history: &History, sink: &mut K) -> Result<(), WriteStop>
    ensures { Writes K.taken K.flushed K.faults (summary_text lines history.now.past) sink.old sink.new result }
{
    let entries = history.len() as u64;
    let Counts { granted, refused } = count_calls(history);
    print_numbers(lines, entries, granted + refused, granted, refused, sink)
}
