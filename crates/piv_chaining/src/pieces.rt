// The data of a reply, given in pieces.
ghost use Rattle.std.specs.Prelude.{◌≡◌, ◌≤◌, ◌+◌, ◌++◌, take, drop, length, ⊤, IfOk, IfSome, IsTrue};
ghost use Rattle.piv_model.specs.Memory.{stored};
ghost use Rattle.piv_chaining.specs.Waiting.{IsGiven, nothing, word_given};

use piv_model::limits::REPLY_BUFFER;
use piv_model::status_words::piece_word;
use piv_model::{NoMemory, ObjectId, Store};
use std::alloc::Global;
use std::marker::Model;

/// The data of a reply, at most 16,400 bytes, and how many of them were given.
#[derive(Drop)]
pub struct Pieces {
    bytes: Vec<u8>,
    from: usize,
    given: usize,
}

impl Model for Pieces {
    ghost use Rattle.std.specs.Prelude.{◌≤◌, ◌-◌, take, drop, length, vec_capacity};
    ghost use Rattle.piv_chaining.specs.Waiting.{Waiting};

    ghost Value = { Waiting };

    ghost view = { λ p. record {
      waiting = drop p.given p.bytes.items;
      piece = take (p.given - p.from) (drop p.from p.bytes.items);
      used = length p.bytes.items;
    } };

    ghost invariant = { λ p. (p.from ≤ p.given) × (p.given ≤ length p.bytes.items) × (length p.bytes.items ≤ 16400) × (16400 ≤ vec_capacity p.bytes) × (p.given - p.from ≤ 256) };
}

impl Pieces {
    /// Reserves room. Nothing waits.
    pub fn new(alloc: Global) -> Result<Pieces, NoMemory>
        ensures { IfOk result (λ pieces. pieces ≡ nothing) }
    {
        let bytes = Vec::with_capacity(alloc, REPLY_BUFFER)?;
        Ok(Pieces {
            bytes,
            from: 0,
            given: 0,
        })
    }

    /// Drops what waits.
    pub fn clear(&mut self)
        ensures { self.new ≡ nothing }
    {
        self.bytes.clear();
        self.from = 0;
        self.given = 0;
    }

    /// Adds data, which fit.
    pub fn push(&mut self, bytes: &[u8])
        requires { self.old.used + length bytes.now ≤ 16400 }
        ensures waiting { self.new.waiting ≡ self.old.waiting ++ bytes.now }
        ensures used { self.new.used ≡ self.old.used + length bytes.now }
    {
        self.bytes.extend_from_slice(bytes).unwrap();
    }

    ghost use Rattle.std.specs.Borrow.{sem, follows_so};
    ghost use Rattle.piv_chaining.specs.Lending.{LendsRoom};

    /// Adds room for so many bytes, which fit, and lends it for writing: what is written there waits.
    pub fn lend(&mut self, size: usize) -> &mut [u8]
        requires { self.old.used + size ≤ 16400 }
        ensures* writes_back { sem 𝓛 (LendsRoom self.entry size result) }
        ensures size { length result.now ≡ size }
    {
        let start = self.bytes.len();
        self.bytes.resize(start + size, 0).unwrap();
        self.bytes.slice_mut(start..)
    }

    /// Adds the value of an object, which has this size.
    #[tactic(auto, using(crate::proofs::Rooms::rooms))]
    pub fn push_object<S: Store>(&mut self, store: &S, id: ObjectId, size: usize)
        requires on { IsTrue (S.state store.now).power.on }
        requires room { self.old.used + size ≤ 16400 }
        requires whole { IfSome (S.state store.now).mem (λ m. size ≡ length (stored m id)) }
        ensures waiting { IfSome (S.state store.now).mem (λ m. self.new.waiting ≡ self.old.waiting ++ stored m id) }
        ensures used { self.new.used ≡ self.old.used + size }
    {
        let room = self.lend(size);
        store.fill(id, room);
    }

    /// Gives the next piece, at most so many bytes: its word, or none where nothing waits. The piece is then
    /// `piece`.
    pub fn step(&mut self, most: usize) -> Option<u16>
        requires low { 1 ≤ most }
        requires high { most ≤ 256 }
        ensures given { IsGiven most result self.old self.new }
        ensures left { self.new.waiting ≡ drop (length self.new.piece) self.old.waiting }
    {
        let left = self.bytes.len() - self.given;
        self.from = self.given;
        if left == 0 {
            return None;
        }
        let size = left.min(most);
        self.given += size;
        Some(piece_word(left - size))
    }

    ghost use mathlib.Core.Option.{none};
    ghost use Rattle.piv_chaining.specs.contracts.pieces.Pieces.{the_row};

    /// Gives the next piece, at most `most` bytes, with its word: 61 XX where bytes are left, XX being
    /// their number, or 00 where they are 256 or more, and 90 00 with the last. There is none where
    /// nothing waits.
    pub fn next(&mut self, most: usize) -> Option<(&[u8], u16)>
        requires low { 1 ≤ most }
        requires high { most ≤ 256 }
        ensures* after { sem 𝓛 (follows_so the_row the_row self.entry.ghost_name none (λ _ _. ⊤)
            (λ new. IsGiven most (word_given result) self.old new)) }
        ensures piece { IfSome result (λ given. given.0.now ≡ take most self.old.waiting) }
    {
        let word = self.step(most);
        self.with_piece(word)
    }

    // The word of a piece, with the piece.
    fn with_piece(&self, word: Option<u16>) -> Option<(&[u8], u16)>
        ensures word { word_given result ≡ word }
        ensures piece { IfSome result (λ given. given.0.now ≡ self.now.piece) }
    {
        match word {
            Some(word) => Some((self.piece(), word)),
            None => None,
        }
    }

    /// The piece that was given last.
    pub fn piece(&self) -> &[u8]
        ensures piece { result.now ≡ self.now.piece }
        ensures small { length result.now ≤ 256 }
    {
        &self.bytes[self.from..self.given]
    }

    /// The number of bytes that wait.
    pub fn waiting(&self) -> usize
        ensures { result ≡ length self.now.waiting }
    {
        self.bytes.len() - self.given
    }
}
