// A device that loses power at planned writes.
ghost use Rattle.std.specs.Prelude.{◌≡◌, ◌+◌, ◌<◌, ◌≤◌, true, false, length, IsSome, OnOk, OnErr};
ghost use Rattle.power_loss.specs.Due.{RisesFrom, RisesFrom-prop};
ghost use Rattle.power_loss.specs.Told.{LostWhereDue};
ghost use Rattle.power_loss.specs.Power.{switched_off, switched_on};
ghost use Rattle.nvm_device.specs.Device.{written, Torn};
ghost use Rattle.power_loss.specs.Plans.{write_numbers, whole, planned_in, plan_after};
ghost use Rattle.nvm_device.specs.UnderPlan.{under_plan, unspoiled, powered, LeavesAsPlanned, LeavesAny, NeverLoses, WritesUnder, Tore};

use crate::loss::{How, Loss};
use crate::{Lost, Nvm};
use power_loss::Plan;

/// A device that loses the writes of a plan, over another device. A planned write leaves in its
/// range what its loss says, or any bytes where the inner device loses that write by itself too.
/// Both losses count, up to the last `u64`.
#[derive(Drop)]
pub struct Fused<N: Nvm> {
    inner: N,
    plan: Plan<How>,
    spoiled: bool,
    ghost rises: { RisesFrom 0 (write_numbers plan.to_come) } by { RisesFrom-prop 0 (write_numbers plan.to_come) },
    ghost within: { length plan.to_come ≤ plan.span },
    ghost loses: { spoiled ≡ true → NeverLoses (N.state inner).power → ⊥ },
}

impl<N: Nvm> Fused<N> {
    ghost use Rattle.nvm_device.specs.Fused.{inner_of, plan_of, below_of};

    /// A device under a plan of rising write numbers, counted from 1.
    pub fn new(inner: N, plan: Vec<Loss>) -> Fused<N>
        requires { RisesFrom 0 (write_numbers plan.items) }
        ensures inner { inner_of result ≡ inner }
        ensures plan { plan_of result ≡ whole plan.items }
        ensures below { below_of N.state result ≡ unspoiled (N.state inner) }
        ensures state { let below = unspoiled (N.state inner) in
            ⟦<Fused<N> as Nvm>⟧.state result ≡ under_plan (whole plan.items) below }
    {
        Fused {
            inner,
            plan: Plan::new(plan),
            spoiled: false,
        }
    }

    /// The inner device. Where that never loses a write by itself, the later losses were told.
    pub fn into_inner(self) -> N
        ensures inner { result ≡ inner_of self }
        ensures told { NeverLoses (N.state result).power → IsSome (⟦<Fused<N> as Nvm>⟧.state self).power.due }
    {
        let Fused {
            inner,
            plan: _,
            spoiled: _,
        } = self;
        inner
    }
}

impl<N: Nvm> Nvm for Fused<N> {
    ghost use Rattle.nvm_device.specs.Fused.{plan_of, below_of};
    ghost use Rattle.nvm_device.specs.Laws.{due_under_rises};

    ghost state = { λ f. under_plan f.plan record { state = N.state f.inner; spoiled = f.spoiled } };

    ghost row_size = { λ f. N.row_size f.inner };

    ghost size_fits = { λ f. N.size_fits f.inner };

    ghost due_rises = { λ f. due_under_rises f.spoiled f.plan (N.state f.inner).power.due f.rises f.within };

    fn size(&self) -> usize {
        self.inner.size()
    }

    fn lost(&self) -> u64 {
        self.inner.lost().saturating_add(self.plan.came())
    }

    fn read(&self, place: usize, out: &mut [u8]) {
        self.inner.read(place, out);
    }

    fn write(&mut self, place: usize, bytes: &[u8]) -> Result<(), Lost>
        requires on { (⟦<Fused<N> as Nvm>⟧.state self.old).power.on ≡ true }
        requires range { place + length bytes.now ≤ (⟦<Fused<N> as Nvm>⟧.state self.old).size }
        requires some { 0 < length bytes.now }
        ensures ok { let state = ⟦<Fused<N> as Nvm>⟧.state in
            OnOk result (state self.new ≡ written 1 place bytes.now (state self.old)) }
        ensures lost { let state = ⟦<Fused<N> as Nvm>⟧.state in
            OnErr result (Torn place (length bytes.now) (state self.old) (state self.new)) }
        ensures due { LostWhereDue 1 (⟦<Fused<N> as Nvm>⟧.state self.old).power.due result }
        ensures planned { let planned = planned_in 1 (plan_of self.old).to_come in
            let old = below_of N.state self.old in
            WritesUnder planned place bytes.now result old (below_of N.state self.new) }
        ensures plan { plan_of self.new ≡ plan_after 1 (plan_of self.old) }
    {
        match self.plan.planned_in(1) {
            Some(how) => {
                if lose(&mut self.inner, place, bytes, how).is_err() {
                    self.spoiled = true;
                }
                self.plan.make(1);
                Err(Lost)
            }
            None => {
                self.plan.make(1);
                match self.inner.write(place, bytes) {
                    Ok(()) => Ok(()),
                    Err(Lost) => {
                        self.spoiled = true;
                        Err(Lost)
                    }
                }
            }
        }
    }

    fn cut(&mut self)
        ensures state { let state = ⟦<Fused<N> as Nvm>⟧.state in
            let old = state self.old in
            state self.new ≡ record old { power = switched_off old.power } }
        ensures plan { plan_of self.new ≡ plan_of self.old }
        ensures below { let old = below_of N.state self.old in
            below_of N.state self.new ≡ powered (switched_off old.state.power) old }
    {
        self.inner.cut();
    }

    fn power(&mut self)
        ensures state { let state = ⟦<Fused<N> as Nvm>⟧.state in
            let old = state self.old in
            state self.new ≡ record old { power = switched_on old.power } }
        ensures plan { plan_of self.new ≡ plan_of self.old }
        ensures below { let old = below_of N.state self.old in
            below_of N.state self.new ≡ powered (switched_on old.state.power) old }
    {
        self.inner.power();
    }
}

// Loses a planned write. Lost means that the device lost it by itself too.
fn lose<N: Nvm>(inner: &mut N, place: usize, bytes: &[u8], how: &How) -> Result<(), Lost>
    requires on { (N.state inner.old).power.on ≡ true }
    requires range { place + length bytes.now ≤ (N.state inner.old).size }
    requires some { 0 < length bytes.now }
    ensures planned { let new = N.state inner.new in
        OnOk result (LeavesAsPlanned how.now place bytes.now (N.state inner.old) new) }
    ensures both { OnErr result (LeavesAny place (length bytes.now) (N.state inner.old) (N.state inner.new)) }
{
    match how {
        How::Before => {}
        How::Torn(pattern) => tear(inner, place, bytes.len(), pattern.as_slice())?,
        How::After => inner.write(place, bytes)?,
    }
    inner.cut();
    Ok(())
}

// Writes the bytes of a pattern again and again, one by one.
fn tear<N: Nvm>(inner: &mut N, place: usize, n: usize, pattern: &[u8]) -> Result<(), Lost>
    requires on { (N.state inner.old).power.on ≡ true }
    requires range { place + n ≤ (N.state inner.old).size }
    requires some { 0 < length pattern.now }
    ensures tore { OnOk result (Tore place n pattern.now (N.state inner.old) (N.state inner.new)) }
    ensures lost { OnErr result (LeavesAny place n (N.state inner.old) (N.state inner.new)) }
{
    for i in 0..n {
        inner.write(place + i, &[pattern[i % pattern.len()]])?;
    }
    Ok(())
}
