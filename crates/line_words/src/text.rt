// What words say, kept: texts and bytes.
use crate::fault::LineFault;
use std::alloc::Global;
use std::marker::Model;

/// A word of a line: a name or an object identifier.
#[derive(Drop)]
pub struct Text {
    text: String,
}

impl Model for Text {
    ghost use Rattle.std.specs.Prelude.{ℕ, List};
    ghost use Rattle.std.specs.String.{string_bytes};

    ghost Value = { List ℕ };

    ghost view = { λ t. string_bytes t.text };
}

impl Text {
    ghost use Rattle.std.specs.Prelude.{◌≡◌, Some};
    ghost use Rattle.line_words.specs.Words.{Gives};

    pub(crate) fn new(alloc: Global, word: &str) -> Result<Text, LineFault>
        ensures { Gives result (Some word.now) }
    {
        match String::from_str(alloc, word) {
            Ok(text) => Ok(Text { text }),
            Err(_) => Err(LineFault::NoMemory),
        }
    }

    /// The word.
    pub fn as_str(&self) -> &str
        ensures { result.now ≡ self.now }
    {
        self.text.as_str()
    }
}

/// The bytes that a word of a line spells.
#[derive(Drop)]
pub struct Bytes {
    bytes: Vec<u8>,
}

impl Model for Bytes {
    ghost use Rattle.std.specs.Prelude.{ℕ, List};

    ghost Value = { List ℕ };

    ghost view = { λ b. b.bytes.items };
}

impl Bytes {
    ghost use Rattle.std.specs.Prelude.{◌≡◌};

    pub(crate) fn new(bytes: Vec<u8>) -> Bytes
        ensures { result ≡ bytes.items }
    {
        Bytes { bytes }
    }

    /// The bytes.
    pub fn as_slice(&self) -> &[u8]
        ensures { result.now ≡ self.now }
    {
        &self.bytes
    }
}
