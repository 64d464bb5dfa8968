// How far a call is.
use crate::handle::CardHandle;
use aes_block::Key;
use arrayvec::ArrayVec;
use piv_model::{ApiAnswer, Interface, ObjectId, ReplyBytes};
use std::marker::Model;

/// A PIN and the key reference that it is for.
#[derive(Drop)]
pub struct Pin {
    pub reference: u8,
    pub bytes: Vec<u8>,
}

impl Model for Pin {
    ghost use Rattle.piv_objects.specs.Authenticators.{Credential};

    ghost Value = { Credential };

    ghost view = { λ p. record { pin = p.bytes.items; reference = p.reference } };
}

/// A reset, a cut or a power of a card.
#[derive(Clone, Copy)]
pub enum Switch {
    Reset { interface: Interface },
    Cut,
    Power,
}

/// A call, its turn from 0, and what it keeps of its replies.
#[derive(Drop)]
pub enum State {
    Connect {
        card: usize,
        interface: Interface,
        shared: bool,
    },
    Disconnect {
        handle: CardHandle,
    },
    Select {
        handle: CardHandle,
        aid: ArrayVec<u8, 16>,
    },
    LogIn {
        handle: CardHandle,
        pins: Vec<Pin>,
        turn: usize,
    },
    LogOut {
        handle: CardHandle,
        turn: usize,
        idle: bool,
    },
    Get {
        handle: CardHandle,
        object: ObjectId,
        turn: usize,
        body: Vec<u8>,
    },
    Put {
        handle: CardHandle,
        element: Vec<u8>,
        turn: usize,
    },
    Crypt {
        handle: CardHandle,
        algorithm: u8,
        key: u8,
        input: ArrayVec<u8, 255>,
    },
    Admin {
        handle: CardHandle,
        algorithm: u8,
        key: Key,
        first: Option<ReplyBytes>,
    },
    Transmit {
        handle: CardHandle,
        bytes: Vec<u8>,
    },
    Switch {
        card: usize,
        switch: Switch,
    },
    Ended {
        answer: ApiAnswer,
        handle: Option<CardHandle>,
    },
    Over,
}

impl State {
    ghost use Rattle.std.specs.Prelude.{◌≡◌};
    ghost use Rattle.client_api.specs.States.{going_of};
    ghost use Rattle.client_api.specs.Machine.{is_ended};

    /// The call has its answer.
    pub fn is_ended(&self) -> bool
        ensures { result ≡ is_ended (going_of self.now) }
    {
        matches!(
            self,
            State::Ended {
                answer: _,
                handle: _
            }
        )
    }
}
