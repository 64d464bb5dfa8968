// Which writes are lost, and what each leaves.
ghost use Rattle.std.specs.Prelude.{◌≡◌, ◌<◌, ◌≤◌, length};

use std::marker::Model;

/// 1 to 16 bytes, which a torn write leaves again and again in its range.
#[derive(Drop)]
pub struct Pattern {
    bytes: [u8; 16],
    len: usize,
}

impl Model for Pattern {
    ghost use Rattle.std.specs.Prelude.{List, ℕ, ◌<◌, ◌≤◌, take};

    ghost Value = { List ℕ };

    ghost view = { λ p. take p.len p.bytes };

    ghost invariant = { λ p. (0 < p.len) × (p.len ≤ 16) };
}

impl Pattern {
    pub fn new(bytes: &[u8]) -> Pattern
        requires some { 0 < length bytes.now }
        requires few { length bytes.now ≤ 16 }
        ensures { result ≡ bytes.now }
    {
        let mut row = [0; 16];
        row[..bytes.len()].copy_from_slice(bytes);
        Pattern {
            bytes: row,
            len: bytes.len(),
        }
    }

    pub(crate) fn as_slice(&self) -> &[u8]
        ensures bytes { result.now ≡ self.now }
        ensures some { 0 < length result.now }
        ensures few { length result.now ≤ 16 }
    {
        &self.bytes[..self.len]
    }
}

/// What a lost write leaves in its range: the bytes that stood there, a pattern, or the new bytes.
#[derive(Drop)]
pub enum How {
    Before,
    Torn(Pattern),
    After,
}

impl How {
    /// An equal one.
    pub fn copy(&self) -> How
        ensures { result ≡ self.now }
    {
        match self {
            How::Before => How::Before,
            How::Torn(pattern) => How::Torn(Pattern::new(pattern.as_slice())),
            How::After => How::After,
        }
    }
}

/// The write of this number, counted from 1, is lost.
pub type Loss = power_loss::Loss<How>;
