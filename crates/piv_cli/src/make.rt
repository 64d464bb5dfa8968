// The command `make`: a scene is made and run, and its card's history is summed up.
ghost use Rattle.std.specs.Prelude.{◌≡◌, ◌≢◌, ◌≤◌, ◌+◌, ℕ, List, [], ◌∷◌, length, map, OnOk};
ghost use Rattle.std.specs.List.{All};
ghost use Rattle.piv_ports.specs.Ports.{IsFlushed, Rises};
ghost use Rattle.piv_ports.specs.Writes.{Writes};
ghost use Rattle.block_store.specs.Devices.{OthersStand};
ghost use Rattle.piv_scene.specs.GeneratedScene.{generated_scene};
ghost use Rattle.run_text.specs.Summaries.{summary_text};
ghost use Rattle.scene_cells.specs.Raised.{HasFault};
ghost use Rattle.piv_cli.specs.Devices.{AreReady};
ghost use Rattle.piv_cli.specs.Ends.{IsRunEnd};
ghost use Rattle.piv_cli.specs.Outputs.{Took, TookPart};
ghost use Rattle.piv_cli.specs.Scenes.{IsSummary};

use crate::output::flush;
use crate::status::Status;
use nvm_device::Nvm;
use piv_model::History;
use piv_ports::{Sink, WriteStop};
use piv_scene::{Scene, make_scene};
use run_text::print_summary;
use scene_cells::RunFault;
use std::alloc::Global;

// The lines with which the four scripts begin.
const FIRST_LINES: u64 = 8;

// Prints a summary, and flushes it.
fn print_flushed<K: Sink>(lines: u64, history: &History, sink: &mut K) -> Result<(), WriteStop>
    ensures written { Writes K.taken K.flushed K.faults (summary_text lines history.now.past) sink.old sink.new result }
    ensures flushed { OnOk result (IsFlushed (K.taken sink.new) (K.flushed sink.new)) }
{
    print_summary(lines, history, sink)?;
    flush(sink)
}

/// Runs the scene of `n` lines that `number` makes, and writes its summary.
pub fn make<K: Sink, N: Nvm + Drop>(
    alloc: Global,
    n: u32,
    number: u64,
    sink: &mut K,
    devices: &mut Vec<N>,
) -> Status
    requires ready { AreReady N.state devices.old.items }
    requires some { 1 ≤ n }
    requires few { n ≤ 4000 }
    ensures done { result ≡ Status.Done → (out : List ℕ)
        × IsSummary N.state n number devices.old.items devices.new.items out
        × Took (K.taken sink.old) (K.taken sink.new) out }
    ensures flushed { result ≡ Status.Done → IsFlushed (K.taken sink.new) (K.flushed sink.new) }
    ensures prefix { result ≡ Status.WriteFault → (out : List ℕ)
        × IsSummary N.state n number devices.old.items devices.new.items out
        × TookPart (K.taken sink.old) (K.taken sink.new) out }
    ensures untouched { result ≢ Status.Done → result ≢ Status.WriteFault → sink.new ≡ sink.old }
    ensures ends { IsRunEnd result }
    ensures write_fault { result ≡ Status.WriteFault → Rises (K.faults sink.old) (K.faults sink.new) }
    ensures no_write_fault { result ≢ Status.WriteFault → K.faults sink.new ≡ K.faults sink.old }
    ensures device_fault { result ≡ Status.DeviceFault
        → HasFault N.state (generated_scene n number).cards devices.old.items devices.new.items }
    ensures others { OthersStand 1 devices.old.items devices.new.items }
    ensures sizes { All (λ device. 1114112 ≤ (N.state device).size) devices.new.items }
{
    let Ok(scene) = make_scene(alloc, n, number) else {
        return Status::NoMemory;
    };
    let out = match piv_bench::bench(alloc, &scene, devices) {
        Ok(out) => out,
        Err(RunFault::Device) => return Status::DeviceFault,
        Err(RunFault::NoMemory) => return Status::NoMemory,
    };
    match print_flushed(u64::from(n) + FIRST_LINES, &out.cards[0], sink) {
        Ok(()) => Status::Done,
        Err(WriteStop::Failed) => Status::WriteFault,
    }
}
