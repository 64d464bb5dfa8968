// The words of the program.
ghost use Rattle.std.specs.Prelude.{◌≡◌, ◌≢◌, ◌≤◌, ◌++◌, ◌∷◌, [], ℕ, true, false, Some, IfSome, OnOk, OnErr};
ghost use Rattle.line_words.specs.Words.{is_plain as is_plain_word, number_word};
ghost use Rattle.piv_cli.specs.Words.{asked_for, but_run, lines_wanted, made as made_of, named, plainly_asked};

use piv_model::NoMemory;
use std::alloc::Global;
use std::marker::Model;

/// What the words ask the program to do.
#[derive(Clone, Copy, PartialEq, Eq, Debug)]
pub enum Request {
    /// Read command APDUs and write each reply.
    Apdu,
    /// Read a scene, run it by its schedule, and write its answers and histories.
    Bench,
    /// Read a scene, run each script in a thread of its own, and write what `Bench` writes.
    Run,
    /// Run the scene that `number` makes, with `n` lines of its own, and write what was counted.
    Make { n: u32, number: u64 },
    /// Say how the program is used.
    Help,
    /// Say which version it is.
    Version,
}

/// The program's arguments after its own name.
#[derive(Drop)]
pub struct Words {
    alloc: Global,
    words: Vec<String>,
}

impl Model for Words {
    ghost use Rattle.std.specs.Prelude.{ℕ, List};
    ghost use Rattle.piv_cli.specs.Words.{texts};

    ghost Value = { List (List ℕ) };

    ghost view = { λ w. texts w.words.items };
}

impl Words {
    pub fn new(alloc: Global) -> Words
        ensures { result ≡ [] }
    {
        Words {
            alloc,
            words: Vec::new(alloc),
        }
    }

    /// Adds a word; the list stays as it was where memory is wanting.
    pub fn push(&mut self, word: &str) -> Result<(), NoMemory>
        ensures ok { OnOk result (self.new ≡ self.old ++ word.now ∷ []) }
        ensures err { OnErr result (self.new ≡ self.old) }
    {
        let text = String::from_str(self.alloc, word)?;
        self.words.push(text)?;
        Ok(())
    }

    /// What the words ask, if they are a command.
    #[tactic(auto, unfolding(crate::specs::Words::asked_for, crate::specs::Words::plainly_asked))]
    pub fn request(&self) -> Option<Request>
        ensures command { result ≡ asked_for self.now }
        ensures plainly { but_run result ≡ plainly_asked self.now }
        ensures few_lines { (n number : ℕ) → result ≡ Some (Request.Make n number) → (1 ≤ n) × (n ≤ 4000) }
    {
        match self.words.as_slice() {
            [word] => named_by(word.as_str()),
            [word, lines, number] => {
                if word.as_str() == "make" {
                    made(lines.as_str(), number.as_str())
                } else {
                    None
                }
            }
            _ => None,
        }
    }

    /// Whether they ask for threads, which `plain` has none of.
    pub fn ask_for_threads(&self) -> bool
        ensures run { result ≡ true → asked_for self.now ≡ Some Request.Run }
        ensures plain { result ≡ false → plainly_asked self.now ≡ asked_for self.now }
    {
        matches!(self.request(), Some(Request::Run))
    }
}

fn named_by(word: &str) -> Option<Request>
    ensures command { result ≡ named word.now }
    ensures one_word { (n number : ℕ) → result ≢ Some (Request.Make n number) }
{
    if word == "apdu" {
        Some(Request::Apdu)
    } else if word == "bench" {
        Some(Request::Bench)
    } else if word == "run" {
        Some(Request::Run)
    } else if word == "--help" {
        Some(Request::Help)
    } else if word == "--version" {
        Some(Request::Version)
    } else {
        None
    }
}

// No plus and no leading zero.
fn is_plain(word: &[u8]) -> bool
    ensures { result ≡ is_plain_word word.now }
{
    match word {
        [first, rest @ ..] => *first != b'+' && (*first != b'0' || rest.is_empty()),
        [] => false,
    }
}

// A number of 64 bits in decimal, without leading zeros.
fn number_of(word: &str) -> Option<u64>
    ensures { result ≡ number_word word.now }
{
    if !is_plain(word.as_bytes()) {
        return None;
    }
    match word.parse() {
        Ok(number) => Some(number),
        Err(_) => None,
    }
}

fn lines_of(n: u64) -> Option<u32>
    ensures wanted { result ≡ lines_wanted n }
    ensures few { IfSome result (λ lines. (1 ≤ lines) × (lines ≤ 4000)) }
{
    match n {
        1..=4000 => Some(n as u32),
        _ => None,
    }
}

fn made(lines: &str, number: &str) -> Option<Request>
    ensures command { result ≡ made_of lines.now number.now }
    ensures few_lines { (n number : ℕ) → result ≡ Some (Request.Make n number) → (1 ≤ n) × (n ≤ 4000) }
{
    let n = lines_of(number_of(lines)?)?;
    let number = number_of(number)?;
    Some(Request::Make { n, number })
}
