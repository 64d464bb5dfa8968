// Readers and cards by their names.
ghost use Rattle.std.specs.Prelude.{◌≡◌, ◌++◌, ◌∷◌, [], None, OnOk, OnErr};
ghost use Rattle.client_api.specs.Readers.{reader_of, card_of};

use piv_model::{Interface, NoMemory};
use std::alloc::Global;
use std::marker::Model;

/// A reader: its name, its card, and the interface of the card that it is for.
#[derive(Drop)]
pub struct Reader {
    name: String,
    card: usize,
    interface: Interface,
}

impl Model for Reader {
    ghost use Rattle.std.specs.String.{string_bytes};
    ghost use Rattle.client_api.specs.Readers.{NamedReader};

    ghost Value = { NamedReader };

    ghost view = { λ r. record { name = string_bytes r.name; card = r.card; interface = r.interface } };
}

/// A card and its name.
#[derive(Drop)]
pub struct Card {
    name: String,
    card: usize,
}

impl Model for Card {
    ghost use Rattle.std.specs.String.{string_bytes};
    ghost use Rattle.client_api.specs.Readers.{NamedCard};

    ghost Value = { NamedCard };

    ghost view = { λ c. record { name = string_bytes c.name; card = c.card } };
}

/// The readers and the cards by their names.
#[derive(Drop)]
pub struct Readers {
    alloc: Global,
    readers: Vec<Reader>,
    cards: Vec<Card>,
}

impl Model for Readers {
    ghost use Rattle.client_api.specs.Readers.{Names};

    ghost Value = { Names };

    ghost view = { λ r. record { readers = r.readers.items; cards = r.cards.items } };
}

impl Readers {
    /// No readers and no cards.
    pub fn new(alloc: Global) -> Readers
        ensures { result ≡ record { readers = []; cards = [] } }
    {
        Readers {
            alloc,
            readers: Vec::new(alloc),
            cards: Vec::new(alloc),
        }
    }

    /// Adds a reader whose name isn't there, or leaves all as it was.
    pub fn add(&mut self, name: &str, card: usize, interface: Interface) -> Result<(), NoMemory>
        requires { reader_of self.old.readers name.now ≡ None }
        ensures ok { OnOk result (self.new ≡ record self.old {
          readers = self.old.readers ++ record { name = name.now; card = card; interface = interface } ∷ [];
        }) }
        ensures err { OnErr result (self.new ≡ self.old) }
    {
        let name = String::from_str(self.alloc, name)?;
        self.readers.push(Reader {
            name,
            card,
            interface,
        })?;
        Ok(())
    }

    /// Adds a card whose name isn't there, or leaves all as it was.
    pub fn add_card(&mut self, name: &str, card: usize) -> Result<(), NoMemory>
        requires { card_of self.old.cards name.now ≡ None }
        ensures ok { OnOk result (self.new ≡ record self.old {
          cards = self.old.cards ++ record { name = name.now; card = card } ∷ [];
        }) }
        ensures err { OnErr result (self.new ≡ self.old) }
    {
        let name = String::from_str(self.alloc, name)?;
        self.cards.push(Card { name, card })?;
        Ok(())
    }

    /// The card and the interface of the reader of a name.
    #[tactic(auto, using(crate::proofs::Making::find_laws))]
    pub fn find(&self, name: &str) -> Option<(usize, Interface)>
        ensures { result ≡ reader_of self.now.readers name.now }
    {
        for r in &self.readers {
            if r.name.as_str() == name {
                return Some((r.card, r.interface));
            }
        }
        None
    }

    /// The card of a name.
    #[tactic(auto, using(crate::proofs::Making::find_laws))]
    pub fn find_card(&self, name: &str) -> Option<usize>
        ensures { result ≡ card_of self.now.cards name.now }
    {
        for c in &self.cards {
            if c.name.as_str() == name {
                return Some(c.card);
            }
        }
        None
    }
}
