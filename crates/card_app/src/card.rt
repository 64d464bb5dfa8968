// The card.
ghost use Rattle.std.specs.Prelude.{◌≡◌, ◌≤◌, ◌<◌, ◌+◌, ◌∷◌, ◌==◌, ◌||◌, [], ℕ, Bool, List, Option, length, slice_index_or, true, false, not, is_some, Some, None, ⊤, IsTrue, IfOk, IfErr, IfSome, IsSome, option_map};
ghost use Rattle.power_loss.specs.Power.{switched_off, switched_on};
ghost use Rattle.piv_model.specs.declared.history.Refusal.TheVariants as why;
ghost use Rattle.piv_model.specs.Base.{Base};
ghost use Rattle.piv_model.specs.Commands.{CardCommand, command_of};
ghost use Rattle.piv_model.specs.Entries.{Up};
ghost use Rattle.piv_model.specs.Stores.{StoreState};
ghost use Rattle.piv_model.specs.Written.{command_length};
ghost use Rattle.piv_rules.specs.Acts.{Records, entries, Connect};
ghost use Rattle.piv_rules.specs.Frames.{Frame, chain};
ghost use Rattle.piv_rules.specs.Legal.{opened_count, is_locked};
ghost use Rattle.piv_rules.specs.Losses.{MayTake};
ghost use Rattle.piv_rules.specs.Memories.{mem, running};
ghost use Rattle.piv_rules.specs.RandomBlocks.{next_block};
ghost use Rattle.card_laws.specs.ConnectionSteps.{fresh_on, chain_length};
ghost use Rattle.card_laws.specs.StandsFor.{Attached};
ghost use Rattle.card_laws.specs.StandsLaws.{opened_as, noted_as};
ghost use Rattle.card_commands.specs.Executes.{asked};
ghost use Rattle.card_app.specs.Acts.{closed_as, reset_as, cut_as, up_as};
ghost use Rattle.card_app.specs.Exchanges.{IsMadeAt, frame_on, leaves_on, LeavesStore};
ghost use Rattle.card_app.specs.Flights.{told_of};
ghost use Rattle.card_app.specs.Held.{held_in, KeepsHeld, taken_in};
ghost use Rattle.card_app.specs.Kept.{IsPlaced, AreFree, is_at, slot_attached};
ghost use Rattle.card_app.specs.Outcomes.{exchange_by, exchange_made, is_mute, entry_of_made, IsFramed, IsFramedMade, IsSmall, LeavesOf};
ghost use Rattle.card_app.specs.Plans.{DueFollows, GoesOn};

use crate::exchanging::{Exchanged, exchange_on};
use crate::slot::{Connection, Slot, free_place, place_of, refresh_all, refresh_side};
use card_commands::{Broken, Conn, took};
use piv_chaining::{Joiner, Pieces};
use piv_model::limits::CONNECTIONS;
use piv_model::{Command, Interface, NoMemory, Store, Took};
use std::alloc::Global;
use std::mem;

/// Why a card isn't made. The store is handed back.
#[derive(Drop)]
pub enum CardFault<S> {
    NoMemory(S),
}

/// What an exchange came to.
#[derive(Debug, Drop)]
pub enum Outcome<'a> {
    /// A part of a chain of commands was taken; the reply is 90 00.
    Part,
    /// A command was executed: the command with its joined data, its status word, the first piece of the reply with the
    /// word that is sent with it, and whether the random block that was offered was drawn.
    Call {
        command: Command<'a>,
        sw: u16,
        body: &'a [u8],
        last: u16,
        drew: bool,
    },
    /// A further piece of a reply was given, with its word.
    Rest {
        body: &'a [u8],
        last: u16,
    },
    /// The APDU was refused with this status word, and no command was executed.
    Bad(u16),
    /// The power is off.
    Mute,
}

// The command that lost power, and the call of the store that lost it.
#[derive(Clone, Copy)]
struct Flight {
    c: u32,
    broken: Broken,
}

/// A card over a store, with at most sixteen connections.
#[derive(Drop)]
pub struct Card<S: Store> {
    store: S,
    slots: Vec<Slot>,
    power: bool,
    flight: Option<Flight>,
    // the command in flight
    lost: Joiner,
    ghost sixteen: { length slots.items ≡ 16 },
    ghost powered: { power ≡ (S.state store).power.on },
    ghost landed: { IsTrue power → flight ≡ None },
}

// What an exchange came to, and the place of its connection.
#[derive(Clone, Copy)]
struct Turned {
    place: usize,
    made: Exchanged,
}

impl<S: Store> Card<S> {
    ghost use Rattle.card_app.specs.Stands.{CardStandsFor, IsAttached, attached_to, is_attached, attached_count, state_of, store_of, store_state, held_card};
    ghost use Rattle.card_app.specs.After.{IsExchanged, epoch_at};

    /// A card over a store that has power. Its buffers are reserved here; where memory is wanting the store is handed
    /// back.
    pub fn new(alloc: Global, store: S) -> Result<Card<S>, CardFault<S>>
        requires { IsTrue (S.state store).power.on }
        ensures stands { IfOk result (λ card. (B : Base) → (S.state store).mem ≡ Some B.memory
            → CardStandsFor card B []) }
        ensures same { IfOk result (λ card. store_of card ≡ store) }
        ensures numbers { IfOk result (λ card. (d : ℕ) → is_attached card d ≡ false) }
        ensures count { IfOk result (λ card. attached_count card ≡ 0) }
        ensures held { IfOk result (λ card. held_card card ≡ 0) }
        ensures err { IfErr result (λ fault. fault ≡ CardFault.NoMemory store) }
    {
        let Ok(slots) = free_slots(alloc) else {
            return Err(CardFault::NoMemory(store));
        };
        let Ok(lost) = Joiner::new(alloc) else {
            return Err(CardFault::NoMemory(store));
        };
        Ok(Card {
            store,
            slots,
            power: true,
            flight: None,
            lost,
        })
    }

    /// Opens connection `c`, which isn't attached, on an interface; false exactly where sixteen are attached. On a card
    /// that is on, `c` is one more than the number of connections opened so far.
    pub fn attach(&mut self, c: u32, interface: Interface) -> bool
        requires free { is_attached self.old c ≡ false }

        // The record of any Connect, shared or exclusive, that isn't locked.
        ensures opened { result ≡ true → (B : Base) (R : Records) (shared : Bool) → CardStandsFor self.old B R
            → (store_state self.old).power.on ≡ true → c ≡ opened_count (entries R) + 1
            → is_locked (entries R) interface shared ≡ false
            → CardStandsFor self.new B (opened_as R interface shared ∷ R) }
        ensures refused { result ≡ false → (B : Base) (R : Records) (shared : Bool) → CardStandsFor self.old B R
            → (store_state self.old).power.on ≡ true → is_locked (entries R) interface shared ≡ false
            → CardStandsFor self.new B (noted_as R (Connect interface shared) why.NoChannel ∷ R) }
        ensures full { result ≡ false → attached_count self.old ≡ 16 }
        ensures same { result ≡ false → self.new ≡ self.old }
        ensures one { result ≡ true → attached_count self.new ≡ attached_count self.old + 1 }
        ensures most { attached_count self.new ≤ 16 }
        ensures numbers { result ≡ true → (d : ℕ) → is_attached self.new d ≡ ((c == d) || is_attached self.old d) }
        ensures held { held_card self.new ≤ held_card self.old }
        ensures store { store_of self.new ≡ store_of self.old }
    {
        match free_place(&self.slots) {
            None => false,
            Some(place) => {
                give(&mut self.slots[place], c, interface);
                true
            }
        }
    }

    /// Closes connection `c`, which is attached, also where the power is off.
    pub fn detach(&mut self, c: u32)
        requires attached { IsAttached self.old c }
        ensures stands { (B : Base) (R : Records) → CardStandsFor self.old B R → CardStandsFor self.new B (closed_as c ∷ R) }
        ensures count { attached_count self.new + 1 ≡ attached_count self.old }
        ensures numbers { (d : ℕ) → (c == d) ≡ false → is_attached self.new d ≡ is_attached self.old d }
        ensures held { held_card self.new ≤ held_card self.old }
        ensures store { store_of self.new ≡ store_of self.old }
    {
        if let Some(place) = place_of(&self.slots, c) {
            self.slots[place].connection = None;
        }
    }

    ghost use Rattle.std.specs.Borrow.{sem, follows_so};
    ghost use mathlib.Core.Option.{none};
    ghost use Rattle.card_app.specs.contracts.card.Card.{the_row};
    ghost use Rattle.card_app.specs.declared.slot.Slot.{Slot};

    /// One APDU (ISO/IEC 7816-4) on connection `c`, which is attached; `block` is the card's next random block. The
    /// answer has at most 256 bytes of data. Mute where the power is off after the call. It takes no memory.
    pub fn exchange(&mut self, c: u32, bytes: &[u8], block: &[u8; 16]) -> Outcome<'_>
        requires attached { IsAttached self.old c }

        // Once the lent outcome ends, the card stands for one record more.
        ensures* after { sem 𝓛 (follows_so (the_row S.row S.Ticket.row S.Store) (the_row S.row S.Ticket.row S.Store)
            self.entry.ghost_name none (λ _ _. ⊤)
            (λ new. IsExchanged S.put_cost self.old new c bytes.now block.now result)) }
        ensures small { IsSmall result }
        ensures mute { (store_state self.old).power.on ≡ false → result ≡ Outcome.Mute }
    {
        let turned = self.turn(c, bytes, block);
        self.outcome(turned)
    }

    /// Resets an interface. The power has to be on.
    pub fn reset(&mut self, interface: Interface)
        requires on { IsTrue (store_state self.old).power.on }
        ensures stands { (B : Base) (R : Records) → CardStandsFor self.old B R
            → CardStandsFor self.new B (reset_as interface ∷ R) }
        ensures count { attached_count self.new ≡ attached_count self.old }
        ensures numbers { (d : ℕ) → is_attached self.new d ≡ is_attached self.old d }
        ensures held { held_card self.new ≤ held_card self.old }
        ensures store { store_of self.new ≡ store_of self.old }
    {
        refresh_side(&mut self.slots, interface);
    }

    /// Cuts the power between two commands. It has to be on.
    pub fn cut(&mut self)
        requires on { IsTrue (store_state self.old).power.on }
        ensures stands { (B : Base) (R : Records) → CardStandsFor self.old B R → CardStandsFor self.new B (cut_as ∷ R) }
        ensures idle { (state_of self.new).running ≡ None }
        ensures count { attached_count self.new ≡ attached_count self.old }
        ensures numbers { (d : ℕ) → is_attached self.new d ≡ is_attached self.old d }
        ensures held { held_card self.new ≤ held_card self.old }
        ensures store { let old = store_state self.old in
            store_state self.new ≡ record old { power = switched_off old.power } }
    {
        self.store.cut();
        self.power = false;
        self.flight = None;
        refresh_all(&mut self.slots);
    }

    /// Switches the power on, which has to be off, and tells what the command in flight did. It makes no write.
    pub fn power_up(&mut self) -> Took
        requires off { (store_state self.old).power.on ≡ false }
        ensures stands { (B : Base) (R : Records) → CardStandsFor self.old B R → CardStandsFor self.new B (up_as result ∷ R) }
        ensures count { attached_count self.new ≡ attached_count self.old }
        ensures numbers { (d : ℕ) → is_attached self.new d ≡ is_attached self.old d }
        ensures held { held_card self.new ≤ held_card self.old }
        ensures store { let old = store_state self.old in
            store_state self.new ≡ record old { power = switched_on old.power } }
    {
        self.store.power_up();
        let took = told(&self.store, self.flight, &self.lost);
        self.power = true;
        self.flight = None;
        took
    }

    /// The command in flight at the last loss, with its connection; none where none was in flight, and while the
    /// power is on.
    pub fn running(&self) -> Option<(u32, Command<'_>)>
        ensures flight { option_map (λ r. (r.0, command_of r.1)) result ≡ (state_of self.now).running }
        ensures idle { IsTrue (store_state self.now).power.on → result ≡ None }
        ensures stands { (B : Base) (R : Records) → CardStandsFor self.now B R → (store_state self.now).power.on ≡ false
            → option_map (λ r. (r.0, command_of r.1)) result ≡ running (entries R) }
    {
        match self.flight {
            None => None,
            Some(flight) => Some((flight.c, self.lost.command())),
        }
    }

    /// The bytes in the open chain of connection `c`, which is attached; 0 without one.
    pub fn held(&self, c: u32) -> usize
        requires attached { IsAttached self.now c }
        ensures stands { (B : Base) (R : Records) → CardStandsFor self.now B R → result ≡ chain_length (chain R c) }
        ensures kept { (x : Attached) → attached_to self.now c ≡ Some x → result ≡ chain_length x.chain }
    {
        let place = self.place(c);
        self.slots[place].joiner.held()
    }

    /// Whether connection `c` is attached.
    pub fn is_attached(&self, c: u32) -> bool
        ensures { result ≡ is_attached self.now c }
    {
        place_of(&self.slots, c).is_some()
    }

    /// Whether the power is on.
    pub fn has_power(&self) -> bool
        ensures { result ≡ (store_state self.now).power.on }
    {
        self.power
    }

    /// Hands back the store, whose memory is that of the card.
    pub fn into_store(self) -> S
        ensures same { result ≡ store_of self }
        ensures memory { (B : Base) (R : Records) → CardStandsFor self B R → IsTrue (S.state result).power.on
            → (S.state result).mem ≡ Some (mem B (entries R)) }
        ensures off { (B : Base) (R : Records) → CardStandsFor self B R → (S.state result).power.on ≡ false
            → (took : Took) × MayTake B (entries R) took × ((S.state result).mem ≡ Some (mem B (Up took ∷ entries R))) }
    {
        self.store
    }

    // What an exchange came to, with what it lends.
    fn outcome(&self, turned: Option<Turned>) -> Outcome<'_>
        requires { IfSome turned (λ t. t.place < 16) }
        ensures shown { IfSome turned (λ t. (d : Slot) (c known told : ℕ) (bytes block : List ℕ) (run : Option (ℕ × CardCommand)) →
            exchange_by c known bytes block run told result ≡ exchange_made c known bytes block run told t.made
            (slice_index_or self.now.slots.items t.place d).joiner.command
            (slice_index_or self.now.slots.items t.place d).pieces.piece) }
        ensures mute { turned ≡ None → result ≡ Outcome.Mute }
        ensures muted { IfSome turned (λ t. is_mute result ≡ not (leaves_on t.made)) }
        ensures left { IfSome turned (λ t. (old new : StoreState) → LeavesStore t.made old new → LeavesOf result old new) }
        ensures framed { IfSome turned (λ t. (d : Slot) (f : Frame) (c : ℕ) (run : Option (ℕ × CardCommand)) →
            IsFramedMade f c run t.made (slice_index_or self.now.slots.items t.place d).joiner.command
            (slice_index_or self.now.slots.items t.place d).pieces.piece → IsFramed f c run result) }
        ensures small { IsSmall result }
    {
        match turned {
            None => Outcome::Mute,
            Some(Turned { place, made }) => lent(&self.slots[place], made),
        }
    }

    // The place of an attached connection.
    fn place(&self, c: u32) -> usize
        requires { IsAttached self.now c }
        ensures within { result < length self.now.slots.items }
        ensures placed { IsPlaced self.now.slots.items result c }
        ensures there { (d : Slot) → IsSome (slice_index_or self.now.slots.items result d).connection }
        ensures found { (d : Slot) → attached_to self.now c ≡ slot_attached (slice_index_or self.now.slots.items result d) }
    {
        match place_of(&self.slots, c) {
            Some(place) => place,
            None => 0,
        }
    }

    // An exchange; nothing where the power is off.
    fn turn(&mut self, c: u32, bytes: &[u8], block: &[u8; 16]) -> Option<Turned>
        requires attached { IsAttached self.old c }
        ensures off { (S.state self.old.store).power.on ≡ false → self.new ≡ self.old }
        ensures mute { (S.state self.old.store).power.on ≡ false → result ≡ None }
        ensures within { IfSome result (λ t. t.place < 16) }
        ensures some { (S.state self.old.store).power.on ≡ true → IsSome result }
        ensures stands { (S.state self.old.store).power.on ≡ true → (d : Slot) (B : Base) (R : Records) (known : ℕ)
            → CardStandsFor self.old B R → epoch_at R c ≤ known → block.now ≡ next_block B (entries R)
            → IfSome result (λ t. CardStandsFor self.new B
            (exchange_made c known bytes.now block.now (state_of self.new).running (epoch_at R c) t.made
            (slice_index_or self.new.slots.items t.place d).joiner.command
            (slice_index_or self.new.slots.items t.place d).pieces.piece ∷ R)) }
        ensures due { (S.state self.old.store).power.on ≡ true → (d : Slot) (B : Base) (R : Records)
            → CardStandsFor self.old B R → block.now ≡ next_block B (entries R)
            → IfSome result (λ t. DueFollows S.put_cost B (entries R)
            (entry_of_made c block.now (state_of self.new).running t.made
            (slice_index_or self.new.slots.items t.place d).joiner.command)
            (S.state self.old.store) (S.state self.new.store)) }
        ensures framed { (S.state self.old.store).power.on ≡ true → (d : Slot) (x : Attached) → attached_to self.old c ≡ Some x
            → IfSome result (λ t. IsFramedMade (frame_on bytes.now x) c (state_of self.new).running t.made
            (slice_index_or self.new.slots.items t.place d).joiner.command
            (slice_index_or self.new.slots.items t.place d).pieces.piece) }
        ensures leaves { (S.state self.old.store).power.on ≡ true
            → IfSome result (λ t. LeavesStore t.made (S.state self.old.store) (S.state self.new.store)) }
        ensures power { IfSome result (λ t. (S.state self.new.store).power.on ≡ leaves_on t.made) }
        ensures held { (S.state self.old.store).power.on ≡ true → (d : Slot) → IfSome result (λ t.
            command_length (entry_of_made c block.now (state_of self.new).running t.made
            (slice_index_or self.new.slots.items t.place d).joiner.command) + held_card self.new ≤ held_card self.old + 255) }
        ensures flight { (S.state self.old.store).power.on ≡ true
            → IfSome result (λ t. is_some (state_of self.new).running ≡ not (leaves_on t.made)) }
        ensures numbers { (d : ℕ) → is_attached self.new d ≡ is_attached self.old d }
        ensures count { attached_count self.new ≡ attached_count self.old }
    {
        if !self.power {
            return None;
        }
        let place = self.place(c);
        let made = make(&mut self.store, &mut self.slots[place], bytes, block);
        if let Exchanged::Lost(broken) = made {
            mem::swap(&mut self.lost, &mut self.slots[place].joiner);
            self.power = false;
            self.flight = Some(Flight { c, broken });
            refresh_all(&mut self.slots);
        }
        Some(Turned { place, made })
    }
}

// What the command in flight did.
fn told<S: Store>(store: &S, flight: Option<Flight>, lost: &Joiner) -> Took
    requires on { IsTrue (S.state store.now).power.on }
    ensures { IfSome (S.state store.now).mem (λ m. result ≡ told_of flight lost.now.command (Some m)) }
{
    match flight {
        None => Took::Nothing,
        Some(flight) => took(store, lost.command(), flight.broken),
    }
}

// An exchange in a slot that has a connection.
fn make<S: Store>(store: &mut S, slot: &mut Slot, bytes: &[u8], block: &[u8; 16]) -> Exchanged
    requires on { IsTrue (S.state store.old).power.on }
    requires attached { IsSome slot.old.connection }
    ensures made { IsMadeAt S.put_cost bytes.now block.now result slot.old slot.new (S.state store.old) (S.state store.new) }
    ensures power { (S.state store.new).power.on ≡ leaves_on result }
    ensures leaves { LeavesStore result (S.state store.old) (S.state store.new) }
    ensures held { KeepsHeld result slot.old.joiner slot.new.joiner }
    ensures numbered { (d : ℕ) → is_at slot.new d ≡ is_at slot.old d }
{
    match &mut slot.connection {
        None => Exchanged::Part,
        Some(connection) => exchange_on(
            store,
            connection,
            &mut slot.joiner,
            &mut slot.pieces,
            bytes,
            block,
        ),
    }
}

// What an exchange in a slot came to, with what it lends.
fn lent(slot: &Slot, made: Exchanged) -> Outcome<'_>
    ensures muted { is_mute result ≡ not (leaves_on made) }
    ensures small { IsSmall result }
    ensures shown { (c known told : ℕ) (bytes block : List ℕ) (run : Option (ℕ × CardCommand)) →
        exchange_by c known bytes block run told result
        ≡ exchange_made c known bytes block run told made slot.now.joiner.command slot.now.pieces.piece }
    ensures left { (old new : StoreState) → LeavesStore made old new → LeavesOf result old new }
    ensures framed { (f : Frame) (c : ℕ) (run : Option (ℕ × CardCommand)) →
        IsFramedMade f c run made slot.now.joiner.command slot.now.pieces.piece → IsFramed f c run result }
{
    match made {
        Exchanged::Part => Outcome::Part,
        Exchanged::Call { done, last } => Outcome::Call {
            command: slot.joiner.command(),
            sw: done.sw,
            body: slot.pieces.piece(),
            last,
            drew: done.drew,
        },
        Exchanged::Rest { last } => Outcome::Rest {
            body: slot.pieces.piece(),
            last,
        },
        Exchanged::Bad(sw) => Outcome::Bad(sw),
        Exchanged::Lost(_) => Outcome::Mute,
    }
}

// A free slot becomes that of a connection.
fn give(slot: &mut Slot, c: u32, interface: Interface)
    ensures at { is_at slot.new c ≡ true }
    ensures own { (d : ℕ) → (c == d) ≡ false → is_at slot.new d ≡ false }
    ensures attached { slot_attached slot.new ≡ Some (fresh_on interface) }
    ensures dropped { slot.new.joiner.is_chain ≡ false }
{
    slot.joiner.drop_chain();
    slot.pieces.clear();
    slot.connection = Some(Connection {
        c,
        interface,
        conn: Conn::new(),
    });
}

// A slot without a connection.
fn free_slot(alloc: Global) -> Result<Slot, NoMemory>
    ensures free { IfOk result (λ slot. slot.connection ≡ None) }
    ensures closed { IfOk result (λ slot. slot.joiner.is_chain ≡ false) }
{
    Ok(Slot {
        connection: None,
        joiner: Joiner::new(alloc)?,
        pieces: Pieces::new(alloc)?,
    })
}

// Sixteen slots without a connection.
fn free_slots(alloc: Global) -> Result<Vec<Slot>, NoMemory>
    ensures sixteen { IfOk result (λ slots. length slots.items ≡ 16) }
    ensures free { IfOk result (λ slots. AreFree slots.items) }
    ensures held { IfOk result (λ slots. held_in slots.items ≡ 0) }
    ensures taken { IfOk result (λ slots. taken_in slots.items ≡ 0) }
{
    let mut slots = Vec::with_capacity(alloc, CONNECTIONS)?;
    for place in 0..CONNECTIONS {
        let _ = place;
        let slot = free_slot(alloc)?;
        slots.push(slot)?;
    }
    Ok(slots)
}
