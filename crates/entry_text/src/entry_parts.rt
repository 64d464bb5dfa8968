// The line of an entry, as short texts and the bytes between them.
ghost use Rattle.std.specs.Prelude.{◌≡◌, ◌≤◌, ◌<◌, ◌^◌, ◌+◌, ◌++◌, ◌∷◌, [], length, IfSome};
ghost use Rattle.arrayvec.specs.ArrayVec.{array_vec_len};
ghost use Rattle.std.specs.Fmt.{decimal};
ghost use Rattle.std.specs.List.{join_with_byte};
ghost use Rattle.piv_model.specs.Commands.{command_of};
ghost use Rattle.piv_model.specs.Entries.{entry_of, Opened, Bad, Note};
ghost use Rattle.line_words.specs.Words.{mode};
ghost use Rattle.line_words.specs.Digits.{status_text};
ghost use Rattle.entry_text.specs.EntryTexts.{interface_name as interface_name_of, took_name as took_name_of, refusal_name as refusal_name_of, block_text, IsBlock, IsCommand, IsEntry, entry_text, entry_line};
ghost use Rattle.entry_text.specs.LineParts.{command_front as command_front_of, line_text};

use crate::short_text::{
    ShortText, first_word, put_block, put_dash, put_number, put_spaced_byte, put_status, put_word,
};
use piv_model::{ActKind, Command, Entry, Interface, Refusal, Took};

/// A line: its front, bytes that are spelled, and its back.
#[derive(Drop)]
pub(crate) struct Parts<'a> {
    pub(crate) front: ShortText,
    pub(crate) body: &'a [u8],
    pub(crate) back: ShortText,
}

fn interface_name(interface: Interface) -> &'static str
    ensures value { result.now ≡ interface_name_of interface }
    ensures short { length result.now ≤ 12 }
{
    match interface {
        Interface::Contact => "contact",
        Interface::Contactless => "contactless",
    }
}

fn mode_name(shared: bool) -> &'static str
    ensures value { result.now ≡ mode shared }
    ensures short { length result.now ≤ 12 }
{
    match shared {
        true => "shared",
        false => "exclusive",
    }
}

fn refusal_name(answer: Refusal) -> &'static str
    ensures value { result.now ≡ refusal_name_of answer }
    ensures short { length result.now ≤ 12 }
{
    match answer {
        Refusal::Locked => "locked",
        Refusal::NoChannel => "nochannel",
        Refusal::Off => "off",
        Refusal::On => "on",
        Refusal::Mute => "mute",
        Refusal::Stale => "stale",
        Refusal::NoConnection => "noconnection",
    }
}

pub(crate) fn took_name(took: Took) -> &'static str
    ensures value { result.now ≡ took_name_of took }
    ensures short { length result.now ≤ 12 }
{
    match took {
        Took::Nothing => "nothing",
        Took::Spent => "spent",
        Took::Done => "done",
    }
}

fn opened_text(c: u32, interface: Interface, shared: bool) -> ShortText
    ensures { result.items ≡ entry_text (Opened c interface shared) }
{
    let mut out = first_word("opened");
    put_number(&mut out, c);
    put_word(&mut out, interface_name(interface));
    put_word(&mut out, mode_name(shared));
    out
}

// A word and a number.
fn number_text(word: &str, c: u32) -> ShortText
    requires { length word.now ≤ 12 }
    ensures { result.items ≡ join_with_byte 32 (word.now ∷ decimal c ∷ []) }
{
    let mut out = first_word(word);
    put_number(&mut out, c);
    out
}

// Two words.
fn two_words(word: &str, second: &str) -> ShortText
    requires first { length word.now ≤ 12 }
    requires second { length second.now ≤ 12 }
    ensures { result.items ≡ join_with_byte 32 (word.now ∷ second.now ∷ []) }
{
    let mut out = first_word(word);
    put_word(&mut out, second);
    out
}

fn bad_text(c: u32, sw: u16) -> ShortText
    ensures { result.items ≡ entry_text (Bad c sw) }
{
    let mut out = first_word("bad");
    put_number(&mut out, c);
    put_status(&mut out, sw);
    out
}

// Adds two words.
fn put_two(out: &mut ShortText, word: &str, second: &str)
    requires room { array_vec_len out.old ≤ 12 }
    requires first { length word.now ≤ 12 }
    requires second { length second.now ≤ 12 }
    ensures text { out.new.items ≡ out.old.items ++ 32 ∷ word.now ++ 32 ∷ second.now }
    ensures room { array_vec_len out.new ≤ array_vec_len out.old + 26 }
{
    put_word(out, word);
    put_word(out, second);
}

// Adds a word and a number.
fn put_numbered(out: &mut ShortText, word: &str, c: u32)
    requires room { array_vec_len out.old ≤ 12 }
    requires first { length word.now ≤ 12 }
    ensures text { out.new.items ≡ out.old.items ++ 32 ∷ word.now ++ 32 ∷ decimal c }
    ensures room { array_vec_len out.new ≤ array_vec_len out.old + 26 }
{
    put_word(out, word);
    put_number(out, c);
}

fn note_text(act: ActKind, answer: Refusal) -> ShortText
    ensures { result.items ≡ entry_text (Note act answer) }
{
    let mut out = first_word("note");
    match act {
        ActKind::Connect(interface) => put_two(&mut out, "connect", interface_name(interface)),
        ActKind::Disconnect(c) => put_numbered(&mut out, "disconnect", c),
        ActKind::Exchange(c) => put_numbered(&mut out, "exchange", c),
        ActKind::Reset(interface) => put_two(&mut out, "reset", interface_name(interface)),
        ActKind::Cut => put_word(&mut out, "cut"),
        ActKind::Power => put_word(&mut out, "power"),
    }
    put_word(&mut out, refusal_name(answer));
    out
}

// The front of a line with a command.
fn command_front(word: &str, c: u32, command: Command<'_>) -> ShortText
    requires { length word.now ≤ 12 }
    ensures text { result.items ≡ command_front_of word.now c (command_of command.entry) }
    ensures fits { IsCommand (command_of command.entry) }
{
    let mut out = first_word(word);
    put_number(&mut out, c);
    put_spaced_byte(&mut out, command.ins);
    put_spaced_byte(&mut out, command.p1);
    put_spaced_byte(&mut out, command.p2);
    put_dash(&mut out, command.body);
    out
}

fn call_back(sw: u16, block: Option<[u8; 16]>) -> ShortText
    ensures text { result.items ≡ 32 ∷ status_text sw ++ 32 ∷ block_text block ++ 10 ∷ [] }
    ensures fits { (sw < 2 ^ 16) × IfSome block IsBlock }
{
    let mut out = ShortText::new();
    put_status(&mut out, sw);
    put_block(&mut out, block);
    out.push(b'\n');
    out
}

pub(crate) fn line_end() -> ShortText
    ensures { result.items ≡ 10 ∷ [] }
{
    let mut out = ShortText::new();
    out.push(b'\n');
    out
}

// A line of one short text.
pub(crate) fn whole_text(front: ShortText) -> Parts<'static>
    ensures text { line_text result ≡ front.items ++ 10 ∷ [] }
    ensures front { result.front.items ≡ front.items }
    ensures body { result.body.now ≡ [] }
    ensures back { result.back.items ≡ 10 ∷ [] }
{
    Parts {
        front,
        body: &[],
        back: line_end(),
    }
}

/// The line of an entry, whose numbers fit their types.
pub(crate) fn entry_parts(entry: Entry<'_>) -> Parts<'_>
    ensures text { line_text result ≡ entry_line (entry_of entry.entry) }
    ensures fits { IsEntry (entry_of entry.entry) }
{
    match entry {
        Entry::Opened {
            c,
            interface,
            shared,
        } => whole_text(opened_text(c, interface, shared)),
        Entry::Closed { c } => whole_text(number_text("closed", c)),
        Entry::Call {
            c,
            command,
            sw,
            block,
        } => Parts {
            front: command_front("call", c, command),
            body: command.body,
            back: call_back(sw, block),
        },
        Entry::Part { c } => whole_text(number_text("part", c)),
        Entry::Rest { c } => whole_text(number_text("rest", c)),
        Entry::Bad { c, sw } => whole_text(bad_text(c, sw)),
        Entry::Reset { interface } => whole_text(two_words("reset", interface_name(interface))),
        Entry::Cut { running } => match running {
            None => whole_text(first_word("cut")),
            Some((c, command)) => Parts {
                front: command_front("cut", c, command),
                body: command.body,
                back: line_end(),
            },
        },
        Entry::Up { took } => whole_text(two_words("up", took_name(took))),
        Entry::Note { act, answer } => whole_text(note_text(act, answer)),
    }
}
