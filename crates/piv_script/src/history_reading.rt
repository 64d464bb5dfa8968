// Reading a history's lines back.
ghost use Rattle.std.specs.Prelude.{◌≡◌, ◌∷◌, IfOk, OnErr, OnOk, Some};
ghost use Rattle.piv_model.specs.Entries.{CardEntry, Past};
ghost use Rattle.line_words.specs.Words.{words as words_in};
ghost use Rattle.entry_text.specs.EntryTexts.{IsEntryText, IsHistoryText};
ghost use Rattle.piv_script.specs.Outcomes.{Pushes, GivesPast};
ghost use Rattle.piv_script.specs.EntryReading.{entry_of_words};
ghost use Rattle.piv_script.specs.HistoryReading.{history_of};

use crate::entry_reading::push_words;
use line_words::{LineFault, words_of};
use piv_model::History;
use std::alloc::Global;

fn push_text(alloc: Global, h: &mut History, line: &str) -> Result<(), LineFault>
    ensures { Pushes result (entry_of_words (words_in line.now)) h.old.past h.new.past }
{
    let words = words_of(alloc, line)?;
    push_words(alloc, h, &words)
}

/// Adds the entry that is printed so. The line is malformed exactly where no entry is.
pub fn push_line(alloc: Global, h: &mut History, line: &str) -> Result<(), LineFault>
    // What is added is an entry whose text the line is.
    ensures found { OnOk result ((e : CardEntry) × IsEntryText line.now e × (h.new.past ≡ e ∷ h.old.past)) }
    // An entry whose text the line is is added, unless memory is wanting.
    ensures only { (e : CardEntry) → IsEntryText line.now e → Pushes result (Some e) h.old.past h.new.past }
    ensures same { OnErr result (h.new.past ≡ h.old.past) }
{
    push_text(alloc, h, line)
}

// The history of lines, by the definition that goes over them.
fn read_lines(alloc: Global, text: &str) -> Result<History, LineFault>
    ensures { GivesPast result (history_of text.now) }
{
    let mut h = match History::with_room(alloc, 0, 0) {
        Ok(h) => h,
        Err(_) => return Err(LineFault::NoMemory),
    };
    let mut rest = text;
    'lines: loop {
        match rest.split_once('\n') {
            Some((line, more)) => {
                push_text(alloc, &mut h, line)?;
                rest = more;
            }
            None => {
                if rest.is_empty() {
                    return Ok(h);
                }
                return Err(LineFault::Malformed);
            }
        }
    }
}

/// Reads a history back. The text is malformed exactly where no history is printed so.
pub fn read_history(alloc: Global, text: &str) -> Result<History, LineFault>
    // What is read is printed so.
    ensures found { IfOk result (λ h. IsHistoryText text.now h.past) }
    // What is printed so is read, and as no other history, unless memory is wanting.
    ensures only { (H : Past) → IsHistoryText text.now H → GivesPast result (Some H) }
{
    read_lines(alloc, text)
}
