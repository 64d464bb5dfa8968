// The bytes of a reply, and the bytes of an answer.
ghost use Rattle.std.specs.Prelude.{◌≡◌, ◌≤◌, length};

use arrayvec::ArrayVec;
use std::marker::Model;

/// The data of one reply of a card: at most 256 bytes, which take no memory of the heap.
#[derive(Drop)]
pub struct ReplyBytes {
    bytes: ArrayVec<u8, 256>,
}

impl Model for ReplyBytes {
    ghost use Rattle.std.specs.Prelude.{ℕ, List};

    ghost Value = { List ℕ };

    ghost view = { λ r. r.bytes.items };
}

impl ReplyBytes {
    /// These bytes, at most 256.
    pub fn of(bytes: &[u8]) -> ReplyBytes
        requires { length bytes.now ≤ 256 }
        ensures { result ≡ bytes.now }
    {
        let mut kept = ArrayVec::new();
        let _ = kept.try_extend_from_slice(bytes);
        ReplyBytes { bytes: kept }
    }

    /// The bytes, at most 256.
    pub fn as_slice(&self) -> &[u8]
        ensures value { result.now ≡ self.now }
        ensures most { length result.now ≤ 256 }
    {
        self.bytes.as_slice()
    }
}

// How the bytes of an answer are kept.
#[derive(Drop)]
pub(crate) enum Kept {
    Short(ReplyBytes),
    Long(Vec<u8>),
}

/// The bytes of an answer: those of one reply, or those that a call joined in memory that it had reserved.
#[derive(Drop)]
pub struct Body {
    kept: Kept,
}

impl Model for Body {
    ghost use Rattle.std.specs.Prelude.{ℕ, List};
    ghost use Rattle.piv_model.specs.Replies.{kept_bytes};

    ghost Value = { List ℕ };

    ghost view = { λ b. kept_bytes b.kept };
}

impl Body {
    /// The bytes of one reply.
    pub fn short(reply: ReplyBytes) -> Body
        ensures { result ≡ reply }
    {
        Body {
            kept: Kept::Short(reply),
        }
    }

    /// The bytes of a vector, which is kept.
    pub fn long(bytes: Vec<u8>) -> Body
        ensures { result ≡ bytes.items }
    {
        Body {
            kept: Kept::Long(bytes),
        }
    }

    /// The bytes.
    pub fn as_slice(&self) -> &[u8]
        ensures { result.now ≡ self.now }
    {
        match &self.kept {
            Kept::Short(reply) => reply.as_slice(),
            Kept::Long(bytes) => bytes,
        }
    }
}
