// The room of a reply while it is filled.
ghost use Rattle.std.specs.Prelude.{◌≡◌, ◌≤◌, ◌+◌, ◌++◌, length};
ghost use Rattle.piv_chaining.specs.Waiting.{nothing};

use crate::pieces::Pieces;

/// Fills the data of a reply, at most 16,400 bytes.
#[derive(Drop)]
pub struct Filler<'a> {
    pieces: &'a mut Pieces,
}

impl Filler<'_> {
    ghost use Rattle.piv_chaining.specs.Filling.{filled, filling};

    /// Adds data, which fit.
    pub fn push(&mut self, bytes: &[u8])
        requires { (filled self.old).used + length bytes.now ≤ 16400 }
        ensures same_reference { filling self.new ≡ filling self.old }
        ensures waiting { (filled self.new).waiting ≡ (filled self.old).waiting ++ bytes.now }
        ensures used { (filled self.new).used ≡ (filled self.old).used + length bytes.now }
    {
        self.pieces.push(bytes);
    }

    ghost use Rattle.std.specs.Borrow.{sem};
    ghost use Rattle.piv_chaining.specs.FillerLending.{LendsRoom};

    /// Adds room for so many bytes, which fit, and lends it for writing.
    pub fn lend(&mut self, size: usize) -> &mut [u8]
        requires { (filled self.old).used + size ≤ 16400 }
        ensures* writes_back { sem 𝓛 (LendsRoom self.entry size result) }
        ensures size { length result.now ≡ size }
    {
        self.pieces.lend(size)
    }
}

impl Pieces {
    ghost use Rattle.piv_chaining.specs.Filling.{filled, filling};

    /// Drops what waits, and lends the room for filling.
    pub fn load(&mut self) -> Filler<'_>
        ensures same_reference { filling result ≡ self.entry.ghost_name }
        ensures empty { filled result ≡ nothing }
    {
        self.clear();
        Filler { pieces: self }
    }
}
