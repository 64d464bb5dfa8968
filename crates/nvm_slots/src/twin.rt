// A selector byte and two slots.
ghost use Rattle.std.specs.Prelude.{◌≡◌, ◌<◌, ◌≤◌, length, true, slice_index, IfSome, OnOk, OnErr};
ghost use Rattle.power_loss.specs.Told.{LostWhereDue};

use nvm_device::{Lost, Nvm};

/// A record of at most `size` bytes: a selector byte and two slots, each by its place in the
/// device. The live slot is the selector modulo 2.
#[derive(Clone, Copy)]
pub struct Twin {
    pub selector: usize,
    pub slot: [usize; 2],
    pub size: usize,
}

impl Twin {
    ghost use Rattle.nvm_slots.specs.Slots.{live_bytes, IsRecordIn, IsDisjoint, Kept, Cut, Replaced, ReplacedOrNot};

    fn selector_byte<N: Nvm>(&self, nvm: &N) -> u8
        requires on { (N.state nvm.now).power.on ≡ true }
        requires within { self.now.selector < (N.state nvm.now).size }
        ensures { IfSome (N.state nvm.now).bytes (λ row. result ≡ slice_index row self.now.selector) }
    {
        let mut byte = [0];
        nvm.read(self.selector, &mut byte);
        byte[0]
    }

    /// Reads the beginning of the live slot.
    pub fn read<N: Nvm>(&self, nvm: &N, out: &mut [u8])
        requires on { (N.state nvm.now).power.on ≡ true }
        requires record_in { IsRecordIn (N.state nvm.now).size self.now }
        requires fits { length out.old ≤ self.now.size }
        ensures { let told = (N.state nvm.now).bytes in
            IfSome told (λ row. out.new ≡ live_bytes self.now (length out.old) row) }
    {
        let live = self.selector_byte(nvm) % 2;
        nvm.read(self.slot[live as usize], out);
    }

    /// Makes these bytes the beginning of the live slot, in two writes. Where one of them is lost,
    /// the old or the new record is live.
    pub fn replace<N: Nvm>(&self, nvm: &mut N, bytes: &[u8]) -> Result<(), Lost>
        requires on { (N.state nvm.old).power.on ≡ true }
        requires record_in { IsRecordIn (N.state nvm.old).size self.now }
        requires disjoint { IsDisjoint self.now }
        requires some { 0 < length bytes.now }
        requires fits { length bytes.now ≤ self.now.size }
        ensures ok { let replaced = Replaced self.now bytes.now in
            OnOk result (Kept 2 replaced (N.state nvm.old) (N.state nvm.new)) }
        ensures lost { let replaced = ReplacedOrNot self.now bytes.now in
            OnErr result (Cut 2 replaced (N.state nvm.old) (N.state nvm.new)) }
        ensures due { LostWhereDue 2 (N.state nvm.old).power.due result }
    {
        let byte = self.selector_byte(nvm);
        let other = 1 - byte % 2;
        nvm.write(self.slot[other as usize], bytes)?;
        nvm.write(self.selector, &[other])?;
        Ok(())
    }
}
