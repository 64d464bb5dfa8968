// What a run of a scene gave, written.
ghost use Rattle.std.specs.Prelude.{◌≡◌, ◌≢◌, length, map, Ok, Err, IfOk, OnOk};
ghost use Rattle.piv_ports.specs.Ports.{IsFlushed, Rises};
ghost use Rattle.piv_ports.specs.Writes.{Writes};
ghost use Rattle.run_text.specs.RunTexts.{run_text};
ghost use Rattle.piv_cli.specs.Ends.{IsRunEnd};
ghost use Rattle.piv_cli.specs.Outputs.{Took, TookPart};

use crate::output::flush;
use crate::status::Status;
use piv_ports::{Sink, WriteStop};
use piv_scene::Scene;
use run_text::print_run;
use scene_cells::RunFault;
use scene_runs::RunOut;

// Prints a run, and flushes it.
fn print_flushed<K: Sink>(scene: &Scene, out: &RunOut, sink: &mut K) -> Result<(), WriteStop>
    requires scripts { length out.now.answers.items ≡ length scene.now.scripts }
    requires cards { length out.now.cards.items ≡ length scene.now.cards }
    ensures written { Writes K.taken K.flushed K.faults (run_text scene.now
        (map (λ answers. answers.items) out.now.answers.items) (map (λ h. h.past) out.now.cards.items))
        sink.old sink.new result }
    ensures flushed { OnOk result (IsFlushed (K.taken sink.new) (K.flushed sink.new)) }
{
    print_run(scene, &out.answers, &out.cards, sink)?;
    flush(sink)
}

/// Writes the answers and histories that a run of a scene gave, or ends as the run did.
pub fn write_run<K: Sink>(scene: &Scene, ran: Result<RunOut, RunFault>, sink: &mut K) -> Status
    requires scripts { IfOk ran (λ out. length out.answers.items ≡ length scene.now.scripts) }
    requires cards { IfOk ran (λ out. length out.cards.items ≡ length scene.now.cards) }
    ensures done { result ≡ Status.Done → (out : RunOut) × (ran ≡ Ok out)
        × Took (K.taken sink.old) (K.taken sink.new) (run_text scene.now
        (map (λ answers. answers.items) out.answers.items) (map (λ h. h.past) out.cards.items)) }
    ensures prefix { result ≡ Status.WriteFault → (out : RunOut) × (ran ≡ Ok out)
        × TookPart (K.taken sink.old) (K.taken sink.new) (run_text scene.now
        (map (λ answers. answers.items) out.answers.items) (map (λ h. h.past) out.cards.items)) }
    ensures flushed { result ≡ Status.Done → IsFlushed (K.taken sink.new) (K.flushed sink.new) }
    ensures untouched { result ≢ Status.Done → result ≢ Status.WriteFault → sink.new ≡ sink.old }
    ensures ends { IsRunEnd result }
    ensures write_fault { result ≡ Status.WriteFault → Rises (K.faults sink.old) (K.faults sink.new) }
    ensures no_write_fault { result ≢ Status.WriteFault → K.faults sink.new ≡ K.faults sink.old }
    ensures device_fault { result ≡ Status.DeviceFault → ran ≡ Err RunFault.Device }
{
    let out = match ran {
        Ok(out) => out,
        Err(RunFault::Device) => return Status::DeviceFault,
        Err(RunFault::NoMemory) => return Status::NoMemory,
    };
    match print_flushed(scene, &out, sink) {
        Ok(()) => Status::Done,
        Err(WriteStop::Failed) => Status::WriteFault,
    }
}
