// A card as its rules have it, as far as the commands of a scene ask: the writes that each makes, and what stands where
// one of them is lost.
use crate::lost::{Left, LostWrite};
use piv_model::Took;

const LIMIT: u8 = 3;

// The PUK of the plain card.
pub(crate) const PUK: &str = "3132333435363738";

// A command of a scene: a login by a PIN, one by the administration key, a put of the CHUID's new value, a change from
// an old PIN to a new one, or an unblocking by the PUK and a new PIN.
#[derive(Clone, Copy)]
pub(crate) enum Command {
    LogIn(&'static str),
    Admin,
    Put(&'static str),
    Change(&'static str, &'static str),
    Unblock(&'static str, &'static str),
}

// A command lost power.
#[derive(Clone, Copy)]
struct Cut;

// The writes so far, and those that are lost.
#[derive(Clone, Copy)]
struct Writes<'a> {
    made: u64,
    lost: &'a [LostWrite],
}

impl<'a> Writes<'a> {
    // The next write, and what it leaves where it is lost.
    fn next(&mut self) -> Option<Left> {
        self.made = self.made.saturating_add(1);
        for write in self.lost {
            if write.number == self.made {
                return Some(write.left);
            }
        }
        None
    }
}

// A record in two slots, of which a selector names the live one by its lowest bit.
#[derive(Clone, Copy)]
struct Record<T> {
    value: T,
    in_second: bool,
}

impl<T: Copy> Record<T> {
    fn new(value: T) -> Record<T> {
        Record {
            value,
            in_second: false,
        }
    }

    // Puts a value in the other slot, by so many writes, and then names that slot.
    fn replace(&mut self, value: T, before: u64, writes: &mut Writes<'_>) -> Result<(), Cut> {
        for _ in 0..before {
            if writes.next().is_some() {
                return Err(Cut);
            }
        }
        let lost = writes.next();
        let is_named = match lost {
            None | Some(Left::After) => true,
            Some(Left::Before) => false,
            Some(Left::Torn(byte)) => (byte % 2 == 1) != self.in_second,
        };
        if is_named {
            self.value = value;
            self.in_second = !self.in_second;
        }
        match lost {
            None => Ok(()),
            Some(_) => Err(Cut),
        }
    }
}

#[derive(Clone, Copy, PartialEq, Eq)]
struct References {
    pin: &'static str,
    tries: u8,
    puk_tries: u8,
}

#[derive(Clone, Copy)]
enum Reference {
    Pin,
    Puk,
}

impl References {
    // With one try less, where there is one.
    fn spent(self, reference: Reference) -> Option<References> {
        match reference {
            Reference::Pin => Some(References {
                tries: self.tries.checked_sub(1)?,
                ..self
            }),
            Reference::Puk => Some(References {
                puk_tries: self.puk_tries.checked_sub(1)?,
                ..self
            }),
        }
    }

    fn tries(self, reference: Reference) -> u8 {
        match reference {
            Reference::Pin => self.tries,
            Reference::Puk => self.puk_tries,
        }
    }

    fn secret(self, reference: Reference) -> &'static str {
        match reference {
            Reference::Pin => self.pin,
            Reference::Puk => PUK,
        }
    }
}

impl Command {
    // The reference that it compares.
    fn compares(self) -> Option<Reference> {
        match self {
            Command::LogIn(_) | Command::Change(_, _) => Some(Reference::Pin),
            Command::Unblock(_, _) => Some(Reference::Puk),
            Command::Admin | Command::Put(_) => None,
        }
    }
}

// The plain card on one connection.
#[derive(Drop)]
pub(crate) struct Card<'a> {
    references: Record<References>,
    chuid: Record<&'static str>,
    put_writes: u64,
    has_login: bool,
    writes: Writes<'a>,
}

impl<'a> Card<'a> {
    // The plain card, where a put makes so many writes before it names the new value.
    pub(crate) fn new(put_writes: u64, lost: &'a [LostWrite]) -> Card<'a> {
        let references = References {
            pin: "313233343536FFFF",
            tries: LIMIT,
            puk_tries: LIMIT,
        };
        Card {
            references: Record::new(references),
            chuid: Record::new("3E00FE00"),
            put_writes,
            has_login: false,
            writes: Writes { made: 0, lost },
        }
    }

    // How many writes it made.
    pub(crate) fn writes(&self) -> u64 {
        self.writes.made
    }

    // The status word of a query of the PIN.
    pub(crate) fn query(&self) -> u16 {
        if self.has_login {
            0x9000
        } else {
            0x63C0 + u16::from(self.references.value.tries)
        }
    }

    pub(crate) fn chuid(&self) -> &'static str {
        self.chuid.value
    }

    // A command: its status word, or where it lost power what it did, which is the first of nothing, spent and done
    // whose memory stands.
    pub(crate) fn make(&mut self, command: Command) -> Result<u16, Took> {
        let references = self.references.value;
        let chuid = self.chuid.value;
        match self.execute(command) {
            Ok(word) => Ok(word),
            Err(Cut) => {
                self.has_login = false;
                let spent = command
                    .compares()
                    .and_then(|reference| references.spent(reference));
                if self.references.value == references && self.chuid.value == chuid {
                    Err(Took::Nothing)
                } else if Some(self.references.value) == spent {
                    Err(Took::Spent)
                } else {
                    Err(Took::Done)
                }
            }
        }
    }

    fn execute(&mut self, command: Command) -> Result<u16, Cut> {
        let now = self.references.value;
        match command {
            Command::Admin => Ok(0x9000),
            Command::Put(value) => {
                self.chuid
                    .replace(value, self.put_writes, &mut self.writes)?;
                Ok(0x9000)
            }
            Command::LogIn(pin) => self.log_in(
                pin,
                References {
                    tries: LIMIT,
                    ..now
                },
            ),
            Command::Change(old, new) => {
                let changed = References {
                    pin: new,
                    tries: LIMIT,
                    ..now
                };
                self.log_in(old, changed)
            }
            Command::Unblock(puk, new) => {
                let unblocked = References {
                    pin: new,
                    tries: LIMIT,
                    puk_tries: LIMIT,
                };
                self.compare(Reference::Puk, puk, unblocked)
            }
        }
    }

    fn log_in(&mut self, pin: &str, filled: References) -> Result<u16, Cut> {
        let word = self.compare(Reference::Pin, pin, filled)?;
        if word == 0x9000 {
            self.has_login = true;
        }
        Ok(word)
    }

    // A try is spent before a candidate is compared; a match fills the counter.
    fn compare(
        &mut self,
        reference: Reference,
        candidate: &str,
        filled: References,
    ) -> Result<u16, Cut> {
        let now = self.references.value;
        let Some(spent) = now.spent(reference) else {
            return Ok(0x6983);
        };
        self.references.replace(spent, 1, &mut self.writes)?;
        if candidate != now.secret(reference) {
            self.has_login = false;
            return Ok(0x63C0 + u16::from(spent.tries(reference)));
        }
        self.references.replace(filled, 1, &mut self.writes)?;
        Ok(0x9000)
    }
}
