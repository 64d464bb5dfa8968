// Names that are taken.
ghost use Rattle.std.specs.Prelude.{◌≡◌, [], ◌∷◌, OnOk};
ghost use Rattle.scene_table.specs.Names.{is_among, HaveSame};

use std::alloc::{AllocError, Global};
use std::collections::BTreeSet;
use std::marker::Model;

/// Names, each of which is found in time that grows with the logarithm of their number.
#[derive(Drop)]
pub struct Names<'a> {
    sorted: BTreeSet<&'a str>,
}

impl<'a> Model for Names<'a> {
    ghost use Rattle.std.specs.Prelude.{ℕ, List, map};

    ghost Value = { List (List ℕ) };

    ghost view = { λ n. map (λ k. k.now) n.sorted.keys };
}

impl<'a> Names<'a> {
    /// No name.
    pub fn new(alloc: Global) -> Names<'a>
        ensures { result ≡ [] }
    {
        Names {
            sorted: BTreeSet::new(alloc),
        }
    }

    /// Whether a name is among them.
    pub fn has(&self, name: &str) -> bool
        ensures { result ≡ is_among self.now name.now }
    {
        self.sorted.contains(name)
    }

    /// Adds a name.
    pub fn add(&mut self, name: &'a str) -> Result<(), AllocError>
        ensures { OnOk result (HaveSame self.new (name.now ∷ self.old)) }
    {
        self.sorted.insert(name)?;
        Ok(())
    }
}
