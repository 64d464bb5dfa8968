// Which writes are lost, and what each leaves.

/// Which memory a call leaves that is lost: the old one, or the one that it was to make.
#[derive(Clone, Copy, PartialEq, Eq, Debug)]
pub enum Leaves {
    Old,
    New,
}

/// The write of this number, counted from 1, is lost.
pub type Loss = power_loss::Loss<Leaves>;
