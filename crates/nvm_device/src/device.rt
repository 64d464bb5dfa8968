// A row of bytes with power.
ghost use Rattle.std.specs.Prelude.{◌≡◌, ◌+◌, ◌^◌, ◌<◌, ◌≤◌, length, true, false, IfSome, OnOk, OnErr};
ghost use Rattle.nvm_device.specs.Bytes.{bytes_at};
ghost use Rattle.power_loss.specs.Told.{LostWhereDue};
ghost use Rattle.power_loss.specs.Power.{RisesWithin, switched_off, switched_on};
ghost use Rattle.nvm_device.specs.Device.{DeviceState, written, Torn};

/// The power went off within the call.
#[derive(Clone, Copy, Debug, PartialEq, Eq)]
pub struct Lost;

/// A row of bytes with power, which may go off within a write.
pub trait Nvm {
    /// What the device means.
    ghost state: { Self → DeviceState };

    /// How many bytes it has.
    fn size(&self) -> usize
        ensures { result ≡ (state self.now).size };

    /// How often it has lost power within a write.
    fn lost(&self) -> u64
        ensures { result ≡ (state self.now).power.losses };

    /// The bytes from a place on.
    fn read(&self, place: usize, out: &mut [u8])
        requires on { (state self.now).power.on ≡ true }
        requires range { place + length out.old ≤ (state self.now).size }
        ensures { IfSome (state self.now).bytes (λ row. out.new ≡ bytes_at row place (length out.old)) };

    /// Writes at least one byte from a place on. A write that is lost leaves any bytes there, and
    /// turns the power off.
    fn write(&mut self, place: usize, bytes: &[u8]) -> Result<(), Lost>
        requires on { (state self.old).power.on ≡ true }
        requires range { place + length bytes.now ≤ (state self.old).size }
        requires some { 0 < length bytes.now }
        ensures ok { OnOk result (state self.new ≡ written 1 place bytes.now (state self.old)) }
        ensures lost { OnErr result (Torn place (length bytes.now) (state self.old) (state self.new)) }
        ensures due { LostWhereDue 1 (state self.old).power.due result };

    /// Turns the power off between two writes.
    fn cut(&mut self)
        ensures { let old = state self.old in
            state self.new ≡ record old { power = switched_off old.power } };

    /// Turns the power on.
    fn power(&mut self)
        ensures { let old = state self.old in
            state self.new ≡ record old { power = switched_on old.power } };

    /// A row that is told has the device's size.
    ghost row_size: { (s : Self) → IfSome (state s).bytes (λ row. length row ≡ (state s).size) };

    /// Its places are numbers of the machine.
    ghost size_fits: { (s : Self) → (state s).size < 2 ^ 64 };

    /// Later losses come at rising numbers of writes from now, as many as the span at most.
    ghost due_rises: { (s : Self) → RisesWithin (state s).power.span (state s).power.due };
}
