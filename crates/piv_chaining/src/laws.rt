// The laws of chains and pieces. Each is the contract of a function that does nothing.
ghost use Rattle.piv_chaining.specs.Cuttings.{CuttingsAreJoined, PiecesAreWhole};

/// A command that is cut into parts in any way is joined again.
#[tactic(auto, using(crate::proofs::CuttingLaws::cutting_laws))]
pub fn cuttings_are_joined()
    ensures { CuttingsAreJoined }
{}

/// Pieces that are given until nothing waits are what waited, and each word tells how many bytes are left.
#[tactic(auto, using(crate::proofs::CuttingLaws::cutting_laws))]
pub fn pieces_are_whole()
    ensures { PiecesAreWhole }
{}
