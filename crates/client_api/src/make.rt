// Makers of calls.
ghost use Rattle.std.specs.Prelude.{◌≡◌, ◌≤◌, ◌<◌, ℕ, length, IfOk, MatchResult, replicate};
ghost use Rattle.client_api.specs.Calls.{Call, Decided, Disconnect, Select, LogOut, Crypt, Admin, Transmit, Switch as SwitchCall};
ghost use Rattle.client_api.specs.Makers.{Connects, LogsIn, connect_to, get_of, put_of, put_element, put_header};
ghost use Rattle.client_api.specs.Readers.{reader_of, AreReadersOn};
ghost use Rattle.client_api.specs.Machine.{start};
ghost use Rattle.client_api.specs.Steps.{IsOn, left};
ghost use Rattle.client_api.specs.States.{switch_of};

use crate::call::ApiCall;
use crate::commands::tag_list;
use crate::handle::CardHandle;
use crate::readers::Readers;
use crate::state::{Pin, State, Switch};
use aes_block::Key;
use arrayvec::ArrayVec;
use ber_tlv::header;
use piv_model::{ApiAnswer, ObjectId, object_by_oid};
use piv_objects::{Authenticators, authenticators, connection_description};
use std::alloc::{AllocError, Global};

/// The room for the data of the replies of one call.
const BODY: usize = 16_640;

/// A call that wasn't made, for want of memory alone, with its handle.
#[derive(Drop)]
pub struct Refused {
    pub handle: CardHandle,
}

impl ApiCall {
    // A call that is answered without a turn.
    pub(crate) fn decided(answer: ApiAnswer, handle: Option<CardHandle>) -> ApiCall
        ensures { result ≡ start (Decided answer handle) }
    {
        ApiCall::of(State::Ended { answer, handle })
    }

    // A connection to the reader of a name.
    pub(crate) fn connect_to(readers: &Readers, name: &str, shared: bool) -> ApiCall
        ensures { result ≡ start (connect_to (reader_of readers.now.readers name.now) shared) }
    {
        match readers.find(name) {
            Some((card, interface)) => ApiCall::of(State::Connect {
                card,
                interface,
                shared,
            }),
            None => ApiCall::decided(ApiAnswer::ConnectionFailure, None),
        }
    }

    // A reset, a cut or a power.
    pub(crate) fn switch(card: usize, switch: Switch) -> ApiCall
        ensures { result ≡ start (SwitchCall card (switch_of switch)) }
    {
        ApiCall::of(State::Switch { card, switch })
    }

    /// pivConnect, by a connection description, which names a reader; others may share its interface.
    pub fn connect(readers: &Readers, description: &[u8], shared: bool) -> ApiCall
        ensures made { Connects readers.now.readers description.now shared result }
        ensures on { (cards : ℕ) → AreReadersOn cards readers.now.readers → IsOn cards result }
    {
        match connection_description(description) {
            Ok(name) => ApiCall::connect_to(readers, name, shared),
            Err(_) => ApiCall::decided(ApiAnswer::ConnectionDescriptionMalformed, None),
        }
    }

    /// pivDisconnect.
    pub fn disconnect(handle: CardHandle) -> ApiCall
        ensures made { result ≡ start (Disconnect handle) }
        ensures on { (cards : ℕ) → handle.card < cards → IsOn cards result }
    {
        ApiCall::of(State::Disconnect { handle })
    }

    /// pivSelectCardApplication, by an application's name of at most 16 bytes.
    pub fn select(handle: CardHandle, aid: &[u8]) -> ApiCall
        requires { length aid.now ≤ 16 }
        ensures made { result ≡ start (Select handle aid.now) }
        ensures on { (cards : ℕ) → handle.card < cards → IsOn cards result }
    {
        let mut kept = ArrayVec::new();
        let _ = kept.try_extend_from_slice(aid);
        ApiCall::of(State::Select { handle, aid: kept })
    }

    /// pivLogIntoCardApplication, by one to eight authenticators.
    #[tactic(auto, using(crate::proofs::Making::make_laws))]
    pub fn log_in(alloc: Global, handle: CardHandle, auth: &[u8]) -> Result<ApiCall, Refused>
        ensures made { MatchResult result
            (λ made. (call : Call) × LogsIn handle auth.now call × (made ≡ start call))
            (λ refused. refused.handle ≡ handle) }
        ensures on { IfOk result (λ made. (cards : ℕ) → handle.card < cards → IsOn cards made) }
        ensures few { IfOk result (λ made. left made ≤ 8) }
    {
        match authenticators(auth) {
            Err(_) => Ok(ApiCall::decided(ApiAnswer::AuthenticatorMalformed, Some(handle))),
            Ok(list) => match copy_pins(alloc, &list) {
                Ok(pins) => Ok(ApiCall::of(State::LogIn {
                    handle,
                    pins,
                    turn: 0,
                })),
                Err(_) => Err(Refused { handle }),
            },
        }
    }

    /// pivLogoutOfCardApplication.
    pub fn log_out(handle: CardHandle) -> ApiCall
        ensures made { result ≡ start (LogOut handle) }
        ensures on { (cards : ℕ) → handle.card < cards → IsOn cards result }
    {
        ApiCall::of(State::LogOut {
            handle,
            turn: 0,
            idle: false,
        })
    }

    /// pivGetData, by an object identifier.
    pub fn get_data(alloc: Global, handle: CardHandle, oid: &str) -> Result<ApiCall, Refused>
        ensures made { MatchResult result
            (λ made. made ≡ start (get_of handle oid.now))
            (λ refused. refused.handle ≡ handle) }
        ensures on { IfOk result (λ made. (cards : ℕ) → handle.card < cards → IsOn cards made) }
    {
        let Some(object) = object_by_oid(oid) else {
            return Ok(ApiCall::decided(ApiAnswer::InvalidOid, Some(handle)));
        };
        let Ok(body) = Vec::with_capacity(alloc, BODY) else {
            return Err(Refused { handle });
        };
        Ok(ApiCall::of(State::Get {
            handle,
            object,
            turn: 0,
            body,
        }))
    }

    /// pivPutData, by an object identifier and a value of at most 16,512 bytes.
    #[tactic(auto, using(crate::proofs::Making::make_laws))]
    pub fn put_data(
        alloc: Global,
        handle: CardHandle,
        oid: &str,
        value: &[u8],
    ) -> Result<ApiCall, Refused>
        requires { length value.now ≤ 16512 }
        ensures made { MatchResult result
            (λ made. made ≡ start (put_of handle oid.now value.now))
            (λ refused. refused.handle ≡ handle) }
        ensures on { IfOk result (λ made. (cards : ℕ) → handle.card < cards → IsOn cards made) }
        ensures few { IfOk result (λ made. left made ≤ 65) }
    {
        let Some(object) = object_by_oid(oid) else {
            return Ok(ApiCall::decided(ApiAnswer::InvalidOid, Some(handle)));
        };
        let Ok(element) = element_of(alloc, object, value) else {
            return Err(Refused { handle });
        };
        Ok(ApiCall::of(State::Put {
            handle,
            element,
            turn: 0,
        }))
    }

    // The same with a value of so many equal bytes.
    #[tactic(auto, using(crate::proofs::Making::make_laws))]
    pub(crate) fn put_fill(
        alloc: Global,
        handle: CardHandle,
        oid: &str,
        size: usize,
        fill: u8,
    ) -> Result<ApiCall, Refused>
        requires { size ≤ 16512 }
        ensures made { MatchResult result
            (λ made. made ≡ start (put_of handle oid.now (replicate size fill)))
            (λ refused. refused.handle ≡ handle) }
        ensures on { IfOk result (λ made. (cards : ℕ) → handle.card < cards → IsOn cards made) }
        ensures few { IfOk result (λ made. left made ≤ 65) }
    {
        let Some(object) = object_by_oid(oid) else {
            return Ok(ApiCall::decided(ApiAnswer::InvalidOid, Some(handle)));
        };
        let Ok(element) = filled_element(alloc, object, size, fill) else {
            return Err(Refused { handle });
        };
        Ok(ApiCall::of(State::Put {
            handle,
            element,
            turn: 0,
        }))
    }

    /// pivCrypt: GENERAL AUTHENTICATE with this algorithm and key, and an input of at most 255 bytes.
    pub fn crypt(handle: CardHandle, algorithm: u8, key: u8, input: &[u8]) -> ApiCall
        requires { length input.now ≤ 255 }
        ensures made { result ≡ start (Crypt handle algorithm key input.now) }
        ensures on { (cards : ℕ) → handle.card < cards → IsOn cards result }
    {
        let mut kept = ArrayVec::new();
        let _ = kept.try_extend_from_slice(input);
        ApiCall::of(State::Crypt {
            handle,
            algorithm,
            key,
            input: kept,
        })
    }

    /// The login by the administration key: its challenge is asked for, and answered with this key.
    pub fn admin(handle: CardHandle, algorithm: u8, key: Key) -> ApiCall
        ensures made { result ≡ start (Admin handle algorithm key) }
        ensures on { (cards : ℕ) → handle.card < cards → IsOn cards result }
    {
        ApiCall::of(State::Admin {
            handle,
            algorithm,
            key,
            first: None,
        })
    }

    /// At most 512 bytes, sent as they are.
    pub fn transmit(alloc: Global, handle: CardHandle, bytes: &[u8]) -> Result<ApiCall, Refused>
        requires { length bytes.now ≤ 512 }
        ensures made { MatchResult result
            (λ made. made ≡ start (Transmit handle bytes.now))
            (λ refused. refused.handle ≡ handle) }
        ensures on { IfOk result (λ made. (cards : ℕ) → handle.card < cards → IsOn cards made) }
    {
        let Ok(mut kept) = Vec::with_capacity(alloc, bytes.len()) else {
            return Err(Refused { handle });
        };
        kept.extend_from_slice(bytes).unwrap();
        Ok(ApiCall::of(State::Transmit {
            handle,
            bytes: kept,
        }))
    }
}

fn copy_pin(alloc: Global, pin: &[u8], reference: u8) -> Result<Pin, AllocError>
    ensures { IfOk result (λ p. (p.pin ≡ pin.now) × (p.reference ≡ reference)) }
{
    let mut bytes = Vec::with_capacity(alloc, pin.len())?;
    bytes.extend_from_slice(pin)?;
    Ok(Pin { reference, bytes })
}

#[tactic(auto, using(crate::proofs::Making::pin_laws))]
fn copy_pins(alloc: Global, list: &Authenticators<'_>) -> Result<Vec<Pin>, AllocError>
    ensures { IfOk result (λ pins. pins.items ≡ list.now) }
{
    let mut pins = Vec::with_capacity(alloc, list.len())?;
    for k in 0..list.len() {
        let a = list.get(k);
        let pin = copy_pin(alloc, a.pin, a.reference)?;
        pins.push(pin)?;
    }
    Ok(pins)
}

// The beginning of the element that puts an object, with room for its value.
#[tactic(auto, using(crate::proofs::Making::header_laws))]
fn begin_element(alloc: Global, object: ObjectId, size: usize) -> Result<Vec<u8>, AllocError>
    requires { size ≤ 16512 }
    ensures element { IfOk result (λ begun. begun.items ≡ put_header object size) }
    ensures short { IfOk result (λ begun. (1 ≤ length begun.items) × (length begun.items ≤ 11)) }
{
    let mut begun = Vec::with_capacity(alloc, size + 11)?;
    if object.place() == ObjectId::discovery().place() {
        begun.extend_from_slice(header(0x7E, size).as_slice())?;
        return Ok(begun);
    }
    begun.extend_from_slice(tag_list(object).as_slice())?;
    begun.extend_from_slice(header(0x53, size).as_slice())?;
    Ok(begun)
}

// The element that puts a value.
fn element_of(alloc: Global, object: ObjectId, value: &[u8]) -> Result<Vec<u8>, AllocError>
    requires { length value.now ≤ 16512 }
    ensures element { IfOk result (λ e. e.items ≡ put_element object value.now) }
    ensures short { IfOk result (λ e. (1 ≤ length e.items) × (length e.items ≤ 16574)) }
{
    let mut element = begin_element(alloc, object, value.len())?;
    element.extend_from_slice(value)?;
    Ok(element)
}

// The element that puts so many equal bytes.
fn filled_element(
    alloc: Global,
    object: ObjectId,
    size: usize,
    fill: u8,
) -> Result<Vec<u8>, AllocError>
    requires { size ≤ 16512 }
    ensures element { IfOk result (λ e. e.items ≡ put_element object (replicate size fill)) }
    ensures short { IfOk result (λ e. (1 ≤ length e.items) × (length e.items ≤ 16574)) }
{
    let mut element = begin_element(alloc, object, size)?;
    let end = element.len() + size;
    element.resize(end, fill)?;
    Ok(element)
}
