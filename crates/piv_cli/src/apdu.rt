// The command `apdu`: lines of APDUs are read, and what the plain card replies is written.
ghost use Rattle.std.specs.Prelude.{◌≡◌, ◌≢◌, ◌≤◌, ◌<◌, ◌+◌, ◌⊎◌, ℕ, List, length, Some, IfOk, IfErr, IfSome};
ghost use Rattle.piv_ports.specs.Ports.{IsFlushed, Rises, TakesAtMost, counted};
ghost use Rattle.piv_model.specs.PlainCard.{plain_memory};
ghost use Rattle.block_store.specs.Devices.{IsFaulted, IsReady, OthersStand};
ghost use Rattle.piv_cli.specs.Devices.{AreReady, first_of};
ghost use Rattle.piv_cli.specs.Ends.{IsEnded, IsRefused, reach};
ghost use Rattle.piv_cli.specs.Outputs.{Answered, Serves, Took, TookPart, most_input};

use crate::lines::answer_lines;
use crate::output::write_out;
use crate::program::MOST_INPUT;
use crate::status::Status;
use block_store::BlockStore;
use nvm_device::Nvm;
use piv_model::{Limit, Where, plain_start};
use piv_ports::{ReadStop, Sink, Source, read_all};
use std::alloc::Global;

// Why the card didn't answer an input.
#[derive(Drop)]
enum CardStop {
    Device,
    NoMemory,
}

// Personalises a device as the plain card, answers an input on it, and hands the device back.
fn serve<N: Nvm + Drop>(alloc: Global, nvm: N, input: &[u8]) -> (N, Result<Vec<u8>, CardStop>)
    requires ready { IsReady (N.state nvm) }
    requires few { length input.now ≤ most_input }
    ensures size { 1114112 ≤ (N.state result.0).size }
    ensures serves { IfOk result.1 (λ out. Serves input.now out.items (N.state nvm) (N.state result.0)) }
    ensures fault { IfErr result.1 (λ stop. stop ≡ CardStop.Device → IsFaulted plain_memory (N.state nvm) (N.state result.0)) }
{
    let Ok(start) = plain_start(alloc) else {
        return (nvm, Err(CardStop::NoMemory));
    };
    let store = match BlockStore::personalise(nvm, &start) {
        Ok(store) => store,
        Err(nvm) => return (nvm, Err(CardStop::Device)),
    };
    let (store, answered) = answer_lines(alloc, store, start.random, input);
    let nvm = store.into_inner();
    match answered {
        Ok(output) => (nvm, Ok(output)),
        Err(_) => (nvm, Err(CardStop::NoMemory)),
    }
}

// Serves an input on device 0, which is taken out of the list and put back.
fn serve_first<N: Nvm + Drop>(
    alloc: Global,
    devices: &mut Vec<N>,
    input: &[u8],
) -> Result<Vec<u8>, CardStop>
    requires ready { AreReady N.state devices.old.items }
    requires few { length input.now ≤ most_input }
    ensures others { OthersStand 1 devices.old.items devices.new.items }
    ensures size { 1114112 ≤ (first_of N.state devices.new.items).size }
    ensures serves { IfOk result (λ out. Serves input.now out.items
        (first_of N.state devices.old.items) (first_of N.state devices.new.items)) }
    ensures fault { IfErr result (λ stop. stop ≡ CardStop.Device
        → IsFaulted plain_memory (first_of N.state devices.old.items) (first_of N.state devices.new.items)) }
{
    // The list keeps its room, so the device can be put back.
    let nvm = devices.remove(0);
    let (nvm, answered) = serve(alloc, nvm, input);
    devices.insert(0, nvm).unwrap();
    answered
}

/// Reads lines of APDUs, and writes what the plain card replies.
pub fn apdu<S: Source, K: Sink, N: Nvm + Drop>(
    alloc: Global,
    source: &mut S,
    sink: &mut K,
    devices: &mut Vec<N>,
) -> Status
    requires { AreReady N.state devices.old.items }
    ensures done { result ≡ Status.Done → (out : List ℕ)
        × Answered (S.left source.old) (S.left source.new)
        (first_of N.state devices.old.items) (first_of N.state devices.new.items) out
        × Took (K.taken sink.old) (K.taken sink.new) out }
    ensures flushed { result ≡ Status.Done → IsFlushed (K.taken sink.new) (K.flushed sink.new) }
    ensures prefix { result ≡ Status.WriteFault → (out : List ℕ)
        × Answered (S.left source.old) (S.left source.new)
        (first_of N.state devices.old.items) (first_of N.state devices.new.items) out
        × TookPart (K.taken sink.old) (K.taken sink.new) out }
    ensures untouched { result ≢ Status.Done → result ≢ Status.WriteFault → sink.new ≡ sink.old }
    ensures taken { TakesAtMost (reach result)
        (S.left source.old) (S.left source.new) (S.given source.old) (S.given source.new) }
    ensures usage { result ≢ Status.Usage }
    ensures no_scene { (at : Where) → result ≢ Status.BadScene at }
    ensures too_large { result ≡ Status.TooLarge Limit.Input
        → IfSome (S.left source.old) (λ input. most_input < length input) }
    ensures too_large_count { result ≡ Status.TooLarge Limit.Input
        → S.given source.new ≡ counted (S.given source.old) (most_input + 1) }
    ensures input_only { (what : Limit) → result ≡ Status.TooLarge what → what ≡ Limit.Input }
    ensures small { (result ≡ Status.Done) ⊎ (result ≡ Status.WriteFault)
        → IfSome (S.left source.old) (λ input. length input ≤ most_input) }
    ensures read_fault { result ≡ Status.ReadFault → Rises (S.faults source.old) (S.faults source.new) }
    ensures no_read_fault { result ≢ Status.ReadFault → S.faults source.new ≡ S.faults source.old }
    ensures write_fault { result ≡ Status.WriteFault → Rises (K.faults sink.old) (K.faults sink.new) }
    ensures no_write_fault { result ≢ Status.WriteFault → K.faults sink.new ≡ K.faults sink.old }
    ensures others { OthersStand 1 devices.old.items devices.new.items }
    ensures size { 1114112 ≤ (first_of N.state devices.new.items).size }
    ensures unused { (result ≡ Status.ReadFault) ⊎ IsRefused result → devices.new ≡ devices.old }
    ensures device_fault { result ≡ Status.DeviceFault
        → IsFaulted plain_memory (first_of N.state devices.old.items) (first_of N.state devices.new.items) }
    ensures complete { (input : List ℕ) → S.left source.old ≡ Some input → length input ≤ most_input
        → ¬ (Rises (S.faults source.old) (S.faults source.new)) → ¬ (Rises (K.faults sink.old) (K.faults sink.new))
        → IsEnded result }
    ensures complete_count { S.given source.new < counted (S.given source.old) (most_input + 1)
        → ¬ (Rises (S.faults source.old) (S.faults source.new)) → ¬ (Rises (K.faults sink.old) (K.faults sink.new))
        → IsEnded result }
    ensures ends { ¬ (Rises (S.faults source.old) (S.faults source.new)) → ¬ (Rises (K.faults sink.old) (K.faults sink.new))
        → IsEnded result ⊎ IsRefused result }
{
    let input = match read_all(alloc, source, MOST_INPUT) {
        Ok(input) => input,
        Err(ReadStop::Failed) => return Status::ReadFault,
        Err(ReadStop::TooLarge) => return Status::TooLarge { what: Limit::Input },
        Err(ReadStop::NoMemory) => return Status::NoMemory,
    };
    match serve_first(alloc, devices, &input) {
        Ok(output) => write_out(sink, &output),
        Err(CardStop::Device) => Status::DeviceFault,
        Err(CardStop::NoMemory) => Status::NoMemory,
    }
}
