// A reference: its retry limit, the tries left, and its secret.
ghost use Rattle.std.specs.Prelude.{◌≡◌};
ghost use Rattle.std.specs.Str.{bytes_eq};
ghost use Rattle.piv_model.specs.Changes.{full, one_less, renewed};

#[derive(Clone, Copy)]
pub(crate) struct Reference {
    pub(crate) limit: u8,
    pub(crate) tries: u8,
    pub(crate) secret: [u8; 8],
}

impl Reference {
    ghost use Rattle.memory_store.specs.References.{reference_of};

    // A reference with a full counter.
    pub(crate) fn new(limit: u8, secret: [u8; 8]) -> Reference
        ensures { reference_of result ≡ record { limit = limit; tries = limit; secret = secret } }
    {
        Reference {
            limit,
            tries: limit,
            secret,
        }
    }

    // One try less.
    pub(crate) fn spent(self) -> Reference
        ensures { reference_of result ≡ one_less (reference_of self) }
    {
        let secret = self.secret;
        Reference {
            limit: self.limit,
            tries: self.tries.saturating_sub(1),
            secret,
        }
    }

    // A full counter.
    pub(crate) fn restored(self) -> Reference
        ensures { reference_of result ≡ full (reference_of self) }
    {
        Reference::new(self.limit, self.secret)
    }

    // A new secret, and a full counter.
    pub(crate) fn renewed(self, secret: &[u8; 8]) -> Reference
        ensures { reference_of result ≡ renewed secret.now (reference_of self) }
    {
        Reference::new(self.limit, *secret)
    }

    pub(crate) fn has_secret(&self, candidate: &[u8; 8]) -> bool
        ensures { result ≡ bytes_eq candidate.now (reference_of self.now).secret }
    {
        candidate.as_slice() == self.secret.as_slice()
    }
}
