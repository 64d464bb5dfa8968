// What the program does, over any source and sink.
ghost use Rattle.std.specs.Prelude.{◌≡◌, ◌≢◌, ◌≤◌, ◌<◌, ◌+◌, ◌⊎◌, ℕ, List, length, Some, None, Ok, false, true, IfSome};
ghost use Rattle.std.specs.List.{All};
ghost use Rattle.piv_ports.specs.Ports.{IsFlushed, Rises, TakesAtMost, counted};
ghost use Rattle.block_store.specs.Devices.{OthersStand};
ghost use Rattle.piv_scene.specs.Outcomes.{outcome};
ghost use Rattle.piv_scene.specs.SceneValues.{SceneValue};
ghost use Rattle.piv_cli.specs.Commands.{IsOutput, LostDevice};
ghost use Rattle.piv_cli.specs.Devices.{AreReady};
ghost use Rattle.piv_cli.specs.Ends.{CanServe, EndsBy, IsEnded, IsRefused, reach};
ghost use Rattle.piv_cli.specs.Outputs.{Took, TookPart, most_input};
ghost use Rattle.piv_cli.specs.Words.{asked_for, plainly_asked, reads_input, runs_scene, uses_devices};

use crate::apdu::apdu;
use crate::input::scene_from;
use crate::make::make;
use crate::output::write_out;
use crate::scene::write_run;
use crate::status::Status;
use crate::words::{Request, Words};
use nvm_device::Nvm;
use piv_bench::bench;
use piv_model::{Limit, Where};
use piv_ports::{Sink, Source};
use piv_runners::at_once;
use std::alloc::Global;
use std::sync::Wait;
use std::thread::Threads;

/// The most bytes of an input.
pub const MOST_INPUT: usize = 8_388_608;

/// How the program is used.
pub const HELP: &str = "\
usage: piv COMMAND

  apdu         read command APDUs from standard input, one line of hexadecimal each,
               and write each reply
               piv apdu < examples/select.hex
  bench        read a scene from standard input, run its scripts in the order of its
               schedule, and write each answer and the history of each card
               piv bench < examples/scenes/two_scripts.toml
  run          read a scene, and run each script in a thread of its own; write what bench
               writes
               piv run < examples/scenes/two_scripts.toml
  make N NUMBER
               run a scene of N lines, 1 to 4000, that are chosen by NUMBER, and write
               how many lines, entries and calls there were
               piv make 100 7
  --help       write this text
  --version    write the version
";

/// Which version it is.
pub const VERSION: &str = "piv 0.1.0\n";

/// Does what the words say: all that the program does. `apdu` personalises device 0 as the plain card and runs on it; a
/// command that runs a scene personalises a device for each of its cards, the first for the first one. `run` starts a
/// thread for each script, which waits for its turns at the cards.
pub fn top<R: Threads + Wait + Sync, S: Source, K: Sink, N: Nvm + Drop + Send>(
    rt: &R,
    alloc: Global,
    words: &Words,
    source: &mut S,
    sink: &mut K,
    devices: &mut Vec<N>,
) -> Status
    requires { AreReady N.state devices.old.items }

    // What was read and written, and what the devices hold, where all was done and where a write failed.
    ensures done { result ≡ Status.Done → (out : List ℕ)
        × IsOutput (asked_for words.now) (S.left source.old) (S.left source.new)
        N.state devices.old.items devices.new.items out
        × Took (K.taken sink.old) (K.taken sink.new) out }
    ensures flushed { result ≡ Status.Done → IsFlushed (K.taken sink.new) (K.flushed sink.new) }
    ensures prefix { result ≡ Status.WriteFault → (out : List ℕ)
        × IsOutput (asked_for words.now) (S.left source.old) (S.left source.new)
        N.state devices.old.items devices.new.items out
        × TookPart (K.taken sink.old) (K.taken sink.new) out }

    // What else is read and written.
    ensures untouched { result ≢ Status.Done → result ≢ Status.WriteFault → sink.new ≡ sink.old }
    ensures unread { reads_input (asked_for words.now) ≡ false → source.new ≡ source.old }
    ensures taken { reads_input (asked_for words.now) ≡ true → TakesAtMost (reach result)
        (S.left source.old) (S.left source.new) (S.given source.old) (S.given source.new) }

    // What becomes of the devices.
    ensures others { runs_scene (asked_for words.now) ≡ false
        → OthersStand 1 devices.old.items devices.new.items }
    ensures others_of_scene { (input : List ℕ) (scene : SceneValue) → runs_scene (asked_for words.now) ≡ true
        → S.left source.old ≡ Some input → outcome input ≡ Ok scene
        → OthersStand (length scene.cards) devices.old.items devices.new.items }
    ensures beyond_eight { OthersStand 8 devices.old.items devices.new.items }
    ensures sizes { All (λ device. 1114112 ≤ (N.state device).size) devices.new.items }
    ensures unused { uses_devices (asked_for words.now) ≡ false → devices.new ≡ devices.old }
    ensures unused_unread { (result ≡ Status.ReadFault) ⊎ IsRefused result → devices.new ≡ devices.old }

    // Each other status has its cause.
    ensures usage { result ≡ Status.Usage → asked_for words.now ≡ None }
    ensures usage_only { asked_for words.now ≡ None → result ≡ Status.Usage }
    ensures scene { runs_scene (asked_for words.now) ≡ true
        → IfSome (S.left source.old) (λ input. EndsBy result (outcome input)) }
    ensures scene_only { (at : Where) → result ≡ Status.BadScene at
        → runs_scene (asked_for words.now) ≡ true }
    ensures too_large { result ≡ Status.TooLarge Limit.Input
        → IfSome (S.left source.old) (λ input. most_input < length input) }
    ensures too_large_count { result ≡ Status.TooLarge Limit.Input
        → S.given source.new ≡ counted (S.given source.old) (most_input + 1) }
    ensures input_only { (what : Limit) → result ≡ Status.TooLarge what
        → (what ≡ Limit.Input) ⊎ (runs_scene (asked_for words.now) ≡ true) }
    ensures small { asked_for words.now ≡ Some Request.Apdu
        → (result ≡ Status.Done) ⊎ (result ≡ Status.WriteFault)
        → IfSome (S.left source.old) (λ input. length input ≤ most_input) }
    ensures read_fault { result ≡ Status.ReadFault → Rises (S.faults source.old) (S.faults source.new) }
    ensures no_read_fault { result ≢ Status.ReadFault → S.faults source.new ≡ S.faults source.old }
    ensures write_fault { result ≡ Status.WriteFault → Rises (K.faults sink.old) (K.faults sink.new) }
    ensures no_write_fault { result ≢ Status.WriteFault → K.faults sink.new ≡ K.faults sink.old }
    ensures device_fault { result ≡ Status.DeviceFault → LostDevice (asked_for words.now) (S.left source.old)
        N.state devices.old.items devices.new.items }

    // A text is written, or the sink failed.
    ensures texts_end { (request : Request) → asked_for words.now ≡ Some request
        → uses_devices (Some request) ≡ false → (result ≡ Status.Done) ⊎ (result ≡ Status.WriteFault) }

    // A command over an input that it can serve, with ends that don't fail, is done if memory suffices and no device
    // fails while it is personalised; over a source that tells nothing, `apdu` is if fewer bytes were given than are
    // too many.
    ensures complete { (request : Request) (input : List ℕ) → asked_for words.now ≡ Some request
        → S.left source.old ≡ Some input → CanServe request input
        → ¬ (Rises (S.faults source.old) (S.faults source.new))
        → ¬ (Rises (K.faults sink.old) (K.faults sink.new))
        → IsEnded result }
    ensures complete_count { (request : Request) → asked_for words.now ≡ Some request
        → runs_scene (Some request) ≡ false → S.given source.new < counted (S.given source.old) (most_input + 1)
        → ¬ (Rises (S.faults source.old) (S.faults source.new))
        → ¬ (Rises (K.faults sink.old) (K.faults sink.new))
        → IsEnded result }
    ensures ends { (request : Request) → asked_for words.now ≡ Some request
        → ¬ (Rises (S.faults source.old) (S.faults source.new))
        → ¬ (Rises (K.faults sink.old) (K.faults sink.new))
        → IsEnded result ⊎ IsRefused result }
{
    if words.ask_for_threads() {
        match scene_from(alloc, source) {
            Ok(scene) => write_run(&scene, at_once(rt, alloc, &scene, devices), sink),
            Err(status) => status,
        }
    } else {
        plain(alloc, words, source, sink, devices)
    }
}

/// Does what `top` does, but without threads: to it `run` is no command. Its clauses are those of `top` for the command
/// that the words are to it, `plainly_asked`.
pub fn plain<S: Source, K: Sink, N: Nvm + Drop>(
    alloc: Global,
    words: &Words,
    source: &mut S,
    sink: &mut K,
    devices: &mut Vec<N>,
) -> Status
    requires { AreReady N.state devices.old.items }

    // What was read and written, and what the devices hold, where all was done and where a write failed.
    ensures done { result ≡ Status.Done → (out : List ℕ)
        × IsOutput (plainly_asked words.now) (S.left source.old) (S.left source.new)
        N.state devices.old.items devices.new.items out
        × Took (K.taken sink.old) (K.taken sink.new) out }
    ensures flushed { result ≡ Status.Done → IsFlushed (K.taken sink.new) (K.flushed sink.new) }
    ensures prefix { result ≡ Status.WriteFault → (out : List ℕ)
        × IsOutput (plainly_asked words.now) (S.left source.old) (S.left source.new)
        N.state devices.old.items devices.new.items out
        × TookPart (K.taken sink.old) (K.taken sink.new) out }

    // What else is read and written.
    ensures untouched { result ≢ Status.Done → result ≢ Status.WriteFault → sink.new ≡ sink.old }
    ensures unread { reads_input (plainly_asked words.now) ≡ false → source.new ≡ source.old }
    ensures taken { reads_input (plainly_asked words.now) ≡ true → TakesAtMost (reach result)
        (S.left source.old) (S.left source.new) (S.given source.old) (S.given source.new) }

    // What becomes of the devices.
    ensures others { runs_scene (plainly_asked words.now) ≡ false
        → OthersStand 1 devices.old.items devices.new.items }
    ensures others_of_scene { (input : List ℕ) (scene : SceneValue) → runs_scene (plainly_asked words.now) ≡ true
        → S.left source.old ≡ Some input → outcome input ≡ Ok scene
        → OthersStand (length scene.cards) devices.old.items devices.new.items }
    ensures beyond_eight { OthersStand 8 devices.old.items devices.new.items }
    ensures sizes { All (λ device. 1114112 ≤ (N.state device).size) devices.new.items }
    ensures unused { uses_devices (plainly_asked words.now) ≡ false → devices.new ≡ devices.old }
    ensures unused_unread { (result ≡ Status.ReadFault) ⊎ IsRefused result → devices.new ≡ devices.old }

    // Each other status has its cause.
    ensures usage { result ≡ Status.Usage → plainly_asked words.now ≡ None }
    ensures usage_only { plainly_asked words.now ≡ None → result ≡ Status.Usage }
    ensures scene { runs_scene (plainly_asked words.now) ≡ true
        → IfSome (S.left source.old) (λ input. EndsBy result (outcome input)) }
    ensures scene_only { (at : Where) → result ≡ Status.BadScene at
        → runs_scene (plainly_asked words.now) ≡ true }
    ensures too_large { result ≡ Status.TooLarge Limit.Input
        → IfSome (S.left source.old) (λ input. most_input < length input) }
    ensures too_large_count { result ≡ Status.TooLarge Limit.Input
        → S.given source.new ≡ counted (S.given source.old) (most_input + 1) }
    ensures input_only { (what : Limit) → result ≡ Status.TooLarge what
        → (what ≡ Limit.Input) ⊎ (runs_scene (plainly_asked words.now) ≡ true) }
    ensures small { plainly_asked words.now ≡ Some Request.Apdu
        → (result ≡ Status.Done) ⊎ (result ≡ Status.WriteFault)
        → IfSome (S.left source.old) (λ input. length input ≤ most_input) }
    ensures read_fault { result ≡ Status.ReadFault → Rises (S.faults source.old) (S.faults source.new) }
    ensures no_read_fault { result ≢ Status.ReadFault → S.faults source.new ≡ S.faults source.old }
    ensures write_fault { result ≡ Status.WriteFault → Rises (K.faults sink.old) (K.faults sink.new) }
    ensures no_write_fault { result ≢ Status.WriteFault → K.faults sink.new ≡ K.faults sink.old }
    ensures device_fault { result ≡ Status.DeviceFault → LostDevice (plainly_asked words.now) (S.left source.old)
        N.state devices.old.items devices.new.items }

    // A text is written, or the sink failed.
    ensures texts_end { (request : Request) → plainly_asked words.now ≡ Some request
        → uses_devices (Some request) ≡ false → (result ≡ Status.Done) ⊎ (result ≡ Status.WriteFault) }

    // A command over an input that it can serve, with ends that don't fail, is done if memory suffices and no device
    // fails while it is personalised; over a source that tells nothing, `apdu` is if fewer bytes were given than are
    // too many.
    ensures complete { (request : Request) (input : List ℕ) → plainly_asked words.now ≡ Some request
        → S.left source.old ≡ Some input → CanServe request input
        → ¬ (Rises (S.faults source.old) (S.faults source.new))
        → ¬ (Rises (K.faults sink.old) (K.faults sink.new))
        → IsEnded result }
    ensures complete_count { (request : Request) → plainly_asked words.now ≡ Some request
        → runs_scene (Some request) ≡ false → S.given source.new < counted (S.given source.old) (most_input + 1)
        → ¬ (Rises (S.faults source.old) (S.faults source.new))
        → ¬ (Rises (K.faults sink.old) (K.faults sink.new))
        → IsEnded result }
    ensures ends { (request : Request) → plainly_asked words.now ≡ Some request
        → ¬ (Rises (S.faults source.old) (S.faults source.new))
        → ¬ (Rises (K.faults sink.old) (K.faults sink.new))
        → IsEnded result ⊎ IsRefused result }
{
    match words.request() {
        None => Status::Usage,
        Some(Request::Help) => write_out(sink, HELP.as_bytes()),
        Some(Request::Version) => write_out(sink, VERSION.as_bytes()),
        Some(Request::Apdu) => apdu(alloc, source, sink, devices),
        Some(Request::Bench) => match scene_from(alloc, source) {
            Ok(scene) => write_run(&scene, bench(alloc, &scene, devices), sink),
            Err(status) => status,
        },
        Some(Request::Run) => Status::Usage,
        Some(Request::Make { n, number }) => make(alloc, n, number, sink, devices),
    }
}
