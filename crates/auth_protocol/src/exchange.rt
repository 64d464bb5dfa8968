// The block that a connection may still answer.
ghost use Rattle.std.specs.Prelude.{◌≡◌, ◌↔◌, None, IfSome, IsTrue};

use crate::encipher::Encipher;
use crate::form::{AuthAsk, meaning};
use piv_model::{AuthFields, KeyId};
use std::marker::Model;

/// The random block that a connection may still answer.
#[derive(Clone, Copy, Debug)]
pub enum Pending {
    None,
    /// It was given as a challenge.
    Challenge([u8; 16]),
    /// It was given enciphered, as a Witness.
    Witness([u8; 16]),
}

/// What a GENERAL AUTHENTICATE comes to.
#[derive(Clone, Copy, PartialEq, Eq, Debug)]
pub enum AuthOut {
    /// The random block is the challenge.
    Challenge,
    /// The Witness: the random block enciphered.
    Cipher([u8; 16]),
    /// The challenge was answered rightly.
    Granted,
    /// The Witness was answered rightly; the client's challenge enciphered.
    Mutual([u8; 16]),
    /// The client's challenge enciphered.
    Internal([u8; 16]),
    /// The fields have no form.
    NoForm,
    /// No challenge, or no Witness, is pending.
    NoPending,
    /// The answer is wrong.
    Wrong,
}

/// What is pending on one connection.
#[derive(Clone, Copy, Debug)]
pub struct Exchange {
    pending: Pending,
}

impl Model for Exchange {
    ghost use Rattle.auth_protocol.specs.declared.exchange.Pending.{Pending};

    ghost Value = { Pending };

    ghost view = { λ x. x.pending };

    ghost inverse = { λ p. record { pending = p } };
}

impl Exchange {
    ghost use Rattle.auth_protocol.specs.Meant.{HasFieldSize, asked_by};
    ghost use Rattle.auth_protocol.specs.Answered.{answered, answered_to, left_by, left_by_any, lacks_pending};

    /// Nothing is pending.
    pub fn new() -> Exchange
        ensures { result ≡ Pending.None }
    {
        Exchange {
            pending: Pending::None,
        }
    }

    /// Drops what is pending: at every other command, at a reset and at a loss of power.
    pub fn forget(&mut self)
        ensures { self.new ≡ Pending.None }
    {
        self.pending = Pending::None;
    }

    /// Answers the fields of a template, each of 0 or 16 bytes, with the card's next random block.
    /// Fields without a form come before an answer to what isn't pending, and that before a wrong one.
    pub fn step<C: Encipher>(
        &mut self,
        key: KeyId,
        fields: &AuthFields<'_>,
        block: &[u8; 16],
        crypt: &C,
    ) -> AuthOut
        requires f80 { HasFieldSize fields.now.f80 }
        requires f81 { HasFieldSize fields.now.f81 }
        requires f82 { HasFieldSize fields.now.f82 }
        ensures pending { self.new ≡ left_by_any (asked_by key fields.now) block.now }
        ensures form { result ≡ AuthOut.NoForm ↔ (asked_by key fields.now ≡ None) }
        ensures answer { IfSome (C.keys crypt.now) (λ keys.
            result ≡ answered_to keys self.old (asked_by key fields.now) block.now) }
    {
        match meaning(key, fields) {
            Some(asked) => self.answer(asked, block, crypt),
            None => {
                self.forget();
                AuthOut::NoForm
            }
        }
    }

    /// Answers what was read from a template, with the card's next random block.
    pub fn answer<C: Encipher>(&mut self, asked: AuthAsk, block: &[u8; 16], crypt: &C) -> AuthOut
        ensures pending { self.new ≡ left_by asked block.now }
        ensures form { result ≡ AuthOut.NoForm → ⊥ }
        ensures lacks { result ≡ AuthOut.NoPending ↔ IsTrue (lacks_pending self.old asked) }
        ensures answer { IfSome (C.keys crypt.now) (λ keys. result ≡ answered keys self.old asked block.now) }
    {
        let pending = self.pending;
        self.forget();
        match asked {
            AuthAsk::Internal(x) => AuthOut::Internal(crypt.encipher(KeyId::CardAuth, &x)),
            AuthAsk::Challenge => {
                self.pending = Pending::Challenge(*block);
                AuthOut::Challenge
            }
            AuthAsk::Witness => {
                self.pending = Pending::Witness(*block);
                AuthOut::Cipher(crypt.encipher(KeyId::AdminKey, block))
            }
            AuthAsk::External(x) => match pending {
                Pending::Challenge(challenge) => {
                    if x == crypt.encipher(KeyId::AdminKey, &challenge) {
                        AuthOut::Granted
                    } else {
                        AuthOut::Wrong
                    }
                }
                Pending::None | Pending::Witness(_) => AuthOut::NoPending,
            },
            AuthAsk::Mutual(w, x) => match pending {
                Pending::Witness(witness) => {
                    if w == witness {
                        AuthOut::Mutual(crypt.encipher(KeyId::AdminKey, &x))
                    } else {
                        AuthOut::Wrong
                    }
                }
                Pending::None | Pending::Challenge(_) => AuthOut::NoPending,
            },
        }
    }
}
