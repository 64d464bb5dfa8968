// A loss of a plan.

/// The write of this number, counted from 1, is lost. `how` says what it leaves.
#[derive(Clone, Copy, PartialEq, Eq, Debug, Drop)]
pub struct Loss<H> {
    pub write: u64,
    pub how: H,
}
