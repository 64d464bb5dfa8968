// Writing to the end.
ghost use Rattle.std.specs.Prelude.{◌≡◌, ◌⊎◌, ℕ, take, is_some, OnOk, OnErr};
ghost use Rattle.piv_ports.specs.Ports.{IsFlushed, Rises, with_bytes};
ghost use Rattle.piv_ports.specs.Writes.{Writes};

use crate::status::Status;
use piv_ports::{Failed, Sink, WriteStop, write_all};

/// Passes on all that was written.
pub fn flush<K: Sink>(sink: &mut K) -> Result<(), WriteStop>
    ensures all { OnOk result (IsFlushed (K.taken sink.new) (K.flushed sink.new)) }
    ensures no_fault { OnOk result (K.faults sink.new ≡ K.faults sink.old) }
    ensures failed { OnErr result (Rises (K.faults sink.old) (K.faults sink.new)) }
    ensures same { K.taken sink.new ≡ K.taken sink.old }
    ensures told { is_some (K.flushed sink.new) ≡ is_some (K.flushed sink.old) }
{
    match sink.flush() {
        Ok(()) => Ok(()),
        Err(Failed) => Err(WriteStop::Failed),
    }
}

// Writes all of this, and flushes it.
fn write_flushed<K: Sink>(sink: &mut K, bytes: &[u8]) -> Result<(), WriteStop>
    ensures written { Writes K.taken K.flushed K.faults bytes.now sink.old sink.new result }
    ensures flushed { OnOk result (IsFlushed (K.taken sink.new) (K.flushed sink.new)) }
{
    write_all(sink, bytes)?;
    flush(sink)
}

/// Writes all of this and flushes it, at the end of the program.
pub fn write_out<K: Sink>(sink: &mut K, bytes: &[u8]) -> Status
    ensures done { result ≡ Status.Done → K.taken sink.new ≡ with_bytes (K.taken sink.old) bytes.now }
    ensures flushed { result ≡ Status.Done → IsFlushed (K.taken sink.new) (K.flushed sink.new) }
    ensures no_fault { result ≡ Status.Done → K.faults sink.new ≡ K.faults sink.old }
    ensures fault { result ≡ Status.WriteFault → Rises (K.faults sink.old) (K.faults sink.new) }
    ensures prefix { (n : ℕ) × (K.taken sink.new ≡ with_bytes (K.taken sink.old) (take n bytes.now)) }
    ensures no_other { (result ≡ Status.Done) ⊎ (result ≡ Status.WriteFault) }
{
    match write_flushed(sink, bytes) {
        Ok(()) => Status::Done,
        Err(WriteStop::Failed) => Status::WriteFault,
    }
}
