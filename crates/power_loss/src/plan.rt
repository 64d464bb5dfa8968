// The losses of a plan, of which some have come.
ghost use Rattle.std.specs.Prelude.{◌≡◌, ◌+◌, ◌-◌, ◌≤◌, length, drop, is_some, if◌then◌else◌};
ghost use Rattle.std.specs.Option.{option_copied};
ghost use Rattle.power_loss.specs.Due.{RisesFrom, is_due, due_after};
ghost use Rattle.power_loss.specs.Plans.{write_numbers, planned_in, losses_after, PlanState, whole, plan_after, plan_at};

use crate::Loss;
use std::marker::Model;

/// Losses by rising write numbers, with the count of the writes that were made. Contracts see the
/// losses to come, numbered from the next write on.
#[derive(Drop)]
pub struct Plan<H> {
    losses: Vec<Loss<H>>,
    came: usize,
    made: u64,
}

impl<H> Model for Plan<H> {
    ghost Value = { PlanState H };

    ghost view = { λ p. plan_at p.losses.items p.came p.made };

    ghost invariant = { λ p. (p.came ≤ length p.losses.items)
        × RisesFrom p.made (write_numbers (drop p.came p.losses.items)) };
}

impl<H> Plan<H> {
    /// A plan before the first write.
    pub fn new(losses: Vec<Loss<H>>) -> Plan<H>
        requires { RisesFrom 0 (write_numbers losses.items) }
        ensures { result ≡ whole losses.items }
    {
        Plan {
            losses,
            came: 0,
            made: 0,
        }
    }

    /// How many losses came.
    pub fn came(&self) -> u64
        ensures { result ≡ self.now.span - length self.now.to_come }
    {
        self.came as u64
    }

    /// What is left by the one of the next writes that is lost.
    pub fn planned_in(&self, writes: u64) -> Option<&H>
        ensures planned { option_copied result ≡ planned_in writes self.now.to_come }
        ensures due { is_some result ≡ is_due writes (write_numbers self.now.to_come) }
    {
        match self.losses.get(self.came) {
            Some(loss) if loss.write - self.made <= writes => Some(&loss.how),
            _ => None,
        }
    }

    /// So many writes are made. One of them that is lost is the last that is made.
    pub fn make(&mut self, writes: u64)
        ensures plan { self.new ≡ plan_after writes self.old }
        ensures due { let due = write_numbers self.old.to_come in
            write_numbers self.new.to_come ≡ due_after writes due }
        ensures came { let came = is_due writes (write_numbers self.old.to_come) in
            length self.old.to_come ≡ length self.new.to_come + (if came then 1 else 0) }
        ensures rises { RisesFrom 0 (write_numbers self.new.to_come) }
        ensures within { length self.new.to_come ≤ self.new.span }
    {
        if self.came == self.losses.len() {
            return;
        }
        let next = self.losses[self.came].write;
        if next - self.made > writes {
            self.made += writes;
            return;
        }
        self.made = next;
        self.came += 1;
    }
}
