// The acts on a cell that isn't full.
ghost use Rattle.std.specs.Prelude.{◌≡◌, true, false, IsSome, IfSome};
ghost use Rattle.piv_model.specs.Base.{Base, profile};
ghost use Rattle.piv_rules.specs.Acts.{Records, entries, Connect, Disconnect, Exchange, ResetSide, CutPower, PowerOn};
ghost use Rattle.piv_rules.specs.Memories.{running};
ghost use Rattle.card_acts.specs.Acts.{answer_of, is_answer_to};
ghost use Rattle.card_cell.specs.Counts.{comparison_running};

use crate::cell::CardCell;
use crate::compared::{Comparison, comparison_in};
use crate::exchanging::{Exchanged, exchange};
use card_acts::Answer;
use piv_model::{ActKind, Entry, Interface, Refusal, Store};

impl<S: Store> CardCell<S> {
    ghost use Rattle.card_cell.specs.Cells.{CellStandsFor, HasTurn, IsNotedOnly, TurnsOnce, store_in};

    // Notes an act that changes nothing.
    fn note(&mut self, act: ActKind, why: Refusal)
        requires { HasTurn self.old }
        ensures { IsNotedOnly act why self.old self.new }
    {
        self.history.push(Entry::Note { act, answer: why });
    }

    // The comparison of the command in flight, on a card that is off.
    fn in_flight(&self) -> Option<Comparison>
        requires off { (store_in self.now).power.on ≡ false }
        ensures { (B : Base) (R : Records) → CellStandsFor self.now B R
            → result ≡ comparison_running (profile B) (running (entries R)) }
    {
        match self.card.running() {
            None => None,
            Some((_, command)) => comparison_in(command, self.has_global),
        }
    }

    // A connection is opened.
    pub(crate) fn connect(&mut self, interface: Interface, shared: bool) -> Answer
        requires left { HasTurn self.old }
        ensures some { IsSome (answer_of result) }
        ensures answer { is_answer_to (Connect interface shared) (answer_of result) ≡ true }
        ensures turned { IfSome (answer_of result) (TurnsOnce S.put_cost self.old self.new (Connect interface shared)) }
    {
        if !self.card.has_power() {
            self.note(ActKind::Connect(interface), Refusal::Off);
            return Answer::Off;
        }
        if self.connections.is_locked(interface, shared) {
            self.note(ActKind::Connect(interface), Refusal::Locked);
            return Answer::Locked;
        }
        let c = self.connections.next();
        if !self.card.attach(c, interface) {
            self.note(ActKind::Connect(interface), Refusal::NoChannel);
            return Answer::NoChannel;
        }
        self.connections.add(interface, shared);
        self.history.push(Entry::Opened {
            c,
            interface,
            shared,
        });
        let epoch = self.epochs.of(interface);
        Answer::Connected { c, epoch }
    }

    // A connection is closed, also where the power is off.
    pub(crate) fn disconnect(&mut self, c: u32) -> Answer
        requires left { HasTurn self.old }
        ensures some { IsSome (answer_of result) }
        ensures answer { is_answer_to (Disconnect c) (answer_of result) ≡ true }
        ensures turned { IfSome (answer_of result) (TurnsOnce S.put_cost self.old self.new (Disconnect c)) }
    {
        if self.connections.found(c).is_none() {
            self.note(ActKind::Disconnect(c), Refusal::NoConnection);
            return Answer::NoConnection;
        }
        self.card.detach(c);
        self.connections.remove(c);
        self.history.push(Entry::Closed { c });
        Answer::Disconnected
    }

    // The bytes of an APDU on a connection, by a caller who knows this epoch.
    pub(crate) fn exchange(&mut self, c: u32, epoch: u32, bytes: &[u8]) -> Answer
        requires left { HasTurn self.old }
        ensures some { IsSome (answer_of result) }
        ensures answer { is_answer_to (Exchange c epoch bytes.now) (answer_of result) ≡ true }
        ensures turned { IfSome (answer_of result) (TurnsOnce S.put_cost self.old self.new (Exchange c epoch bytes.now)) }
    {
        let Some(open) = self.connections.found(c) else {
            self.note(ActKind::Exchange(c), Refusal::NoConnection);
            return Answer::NoConnection;
        };
        let told = self.epochs.of(open.interface);
        if !self.card.has_power() {
            self.note(ActKind::Exchange(c), Refusal::Mute);
            return Answer::Mute { epoch: told };
        }
        if epoch < told {
            self.note(ActKind::Exchange(c), Refusal::Stale);
            return Answer::Stale { epoch: told };
        }
        let block = *self.blocks.block();
        match exchange(
            &mut self.card,
            &mut self.history,
            c,
            bytes,
            &block,
            self.has_global,
        ) {
            Exchanged::Replied {
                body,
                sw,
                drew,
                compared,
                took,
            } => {
                self.blocks.draw_if(drew);
                self.tally.call(compared, took);
                Answer::Reply { body, sw }
            }
            Exchanged::Mute => {
                self.epochs.cut();
                Answer::Mute { epoch: told + 1 }
            }
        }
    }

    // An interface is reset.
    pub(crate) fn reset(&mut self, interface: Interface) -> Answer
        requires left { HasTurn self.old }
        ensures some { IsSome (answer_of result) }
        ensures answer { is_answer_to (ResetSide interface) (answer_of result) ≡ true }
        ensures turned { IfSome (answer_of result) (TurnsOnce S.put_cost self.old self.new (ResetSide interface)) }
    {
        if !self.card.has_power() {
            self.note(ActKind::Reset(interface), Refusal::Off);
            return Answer::Off;
        }
        self.card.reset(interface);
        self.epochs.reset(interface);
        self.history.push(Entry::Reset { interface });
        Answer::WasReset
    }

    // The power is cut between two commands.
    pub(crate) fn cut(&mut self) -> Answer
        requires left { HasTurn self.old }
        ensures some { IsSome (answer_of result) }
        ensures answer { is_answer_to CutPower (answer_of result) ≡ true }
        ensures turned { IfSome (answer_of result) (TurnsOnce S.put_cost self.old self.new CutPower) }
    {
        if !self.card.has_power() {
            self.note(ActKind::Cut, Refusal::Off);
            return Answer::Off;
        }
        self.card.cut();
        self.epochs.cut();
        self.history.push(Entry::Cut { running: None });
        Answer::WasCut
    }

    // The power is switched on.
    pub(crate) fn power(&mut self) -> Answer
        requires left { HasTurn self.old }
        ensures some { IsSome (answer_of result) }
        ensures answer { is_answer_to PowerOn (answer_of result) ≡ true }
        ensures turned { IfSome (answer_of result) (TurnsOnce S.put_cost self.old self.new PowerOn) }
    {
        if self.card.has_power() {
            self.note(ActKind::Power, Refusal::On);
            return Answer::On;
        }
        let compared = self.in_flight();
        let took = self.card.power_up();
        self.tally.up(compared, took);
        self.history.push(Entry::Up { took });
        Answer::Up { took }
    }
}
