// A port for tests, whose answers stand in a list.
ghost use Rattle.std.specs.Prelude.{◌≡◌, ℕ, List, Bool, true};
ghost use Rattle.piv_model.specs.declared.kinds.Interface.{Interface as Side};
ghost use Rattle.piv_rules.specs.Acts.{Connect, Disconnect, Exchange, ResetSide, CutPower, PowerOn};
ghost use Rattle.card_acts.specs.Acts.{answer_of, is_answer_to};

use crate::port::Port;
use card_acts::{Act, Answer};
use piv_model::{ReplyBytes, Took};

/// What a turn is answered. An answer that the act can't get stands for the act's own success.
#[derive(Clone, Copy)]
pub enum Told {
    Full,
    /// A status word, and how many bytes of data.
    Reply(u16, usize),
    Mute(u32),
    Stale(u32),
    NoConnection,
    Locked,
    NoChannel,
    Off,
    On,
    Done,
}

/// The port: the answers that are left begin at `next`; `sent` has the bytes of all exchanges.
#[derive(Drop)]
pub struct Listed<'a> {
    pub answers: &'a [Told],
    pub next: usize,
    pub sent: Vec<u8>,
}

// The data of a reply: its first byte is 1, and so on.
fn data(count: usize) -> ReplyBytes {
    let mut bytes = [0; 256];
    for k in 0..256 {
        bytes[k] = (k as u8).wrapping_add(1);
    }
    ReplyBytes::of(&bytes[..count.min(256)])
}

fn connected(told: Told) -> Answer
    ensures { (i : Side) (s : Bool) → is_answer_to (Connect i s) (answer_of result) ≡ true }
{
    match told {
        Told::Full => Answer::Full,
        Told::Locked => Answer::Locked,
        Told::NoChannel => Answer::NoChannel,
        Told::Off => Answer::Off,
        Told::Reply(_, _) | Told::Mute(_) | Told::Stale(_) => Answer::Connected { c: 1, epoch: 0 },
        Told::NoConnection | Told::On | Told::Done => Answer::Connected { c: 1, epoch: 0 },
    }
}

fn disconnected(told: Told) -> Answer
    ensures { (c : ℕ) → is_answer_to (Disconnect c) (answer_of result) ≡ true }
{
    match told {
        Told::Full => Answer::Full,
        Told::NoConnection => Answer::NoConnection,
        Told::Reply(_, _) | Told::Mute(_) | Told::Stale(_) => Answer::Disconnected,
        Told::Locked | Told::NoChannel | Told::Off => Answer::Disconnected,
        Told::On | Told::Done => Answer::Disconnected,
    }
}

fn exchanged(told: Told) -> Answer
    ensures { (c known : ℕ) (bytes : List ℕ) → is_answer_to (Exchange c known bytes) (answer_of result) ≡ true }
{
    let done = 0x9000;
    match told {
        Told::Full => Answer::Full,
        Told::Reply(sw, count) => Answer::Reply {
            body: data(count),
            sw,
        },
        Told::Mute(epoch) => Answer::Mute { epoch },
        Told::Stale(epoch) => Answer::Stale { epoch },
        Told::NoConnection => Answer::NoConnection,
        Told::Locked | Told::NoChannel | Told::Off | Told::On | Told::Done => Answer::Reply {
            body: data(0),
            sw: done,
        },
    }
}

fn reset(told: Told) -> Answer
    ensures { (i : Side) → is_answer_to (ResetSide i) (answer_of result) ≡ true }
{
    match told {
        Told::Full => Answer::Full,
        Told::Off => Answer::Off,
        Told::Reply(_, _) | Told::Mute(_) | Told::Stale(_) => Answer::WasReset,
        Told::NoConnection | Told::Locked | Told::NoChannel => Answer::WasReset,
        Told::On | Told::Done => Answer::WasReset,
    }
}

fn cut(told: Told) -> Answer
    ensures { is_answer_to CutPower (answer_of result) ≡ true }
{
    match told {
        Told::Full => Answer::Full,
        Told::Off => Answer::Off,
        Told::Reply(_, _) | Told::Mute(_) | Told::Stale(_) => Answer::WasCut,
        Told::NoConnection | Told::Locked | Told::NoChannel => Answer::WasCut,
        Told::On | Told::Done => Answer::WasCut,
    }
}

fn power(told: Told) -> Answer
    ensures { is_answer_to PowerOn (answer_of result) ≡ true }
{
    let took = Took::Spent;
    match told {
        Told::Full => Answer::Full,
        Told::On => Answer::On,
        Told::Reply(_, _) | Told::Mute(_) | Told::Stale(_) => Answer::Up { took },
        Told::NoConnection | Told::Locked | Told::NoChannel => Answer::Up { took },
        Told::Off | Told::Done => Answer::Up { took },
    }
}

impl<'a> Port for Listed<'a> {
    ghost use Rattle.std.specs.Prelude.{[]};
    ghost use Rattle.client_api.specs.Ports.{Log};

    ghost cards = { λ p. 1 };

    ghost bases = { λ p. [] };

    ghost turns = { λ p k. 0 };

    ghost seen = { λ p k. 0 };

    // It keeps no records.
    ghost stands = { λ p log. ⊥ };

    ghost above = { λ p log stood. absurd stood };

    fn turn(&mut self, _card: usize, act: Act<'_>) -> Answer {
        let told = self.answers.get(self.next).copied().unwrap_or(Told::Done);
        self.next = self.next.saturating_add(1);
        match act {
            Act::Connect {
                interface: _,
                shared: _,
            } => connected(told),
            Act::Disconnect { c: _ } => disconnected(told),
            Act::Exchange {
                c: _,
                epoch: _,
                bytes,
            } => {
                let _ = self.sent.extend_from_slice(bytes);
                exchanged(told)
            }
            Act::Reset { interface: _ } => reset(told),
            Act::Cut => cut(told),
            Act::Power => power(told),
        }
    }
}
