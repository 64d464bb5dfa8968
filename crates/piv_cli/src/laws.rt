// The laws of the definitions. A law is the contract of a function that does nothing.
ghost use Rattle.piv_cli.specs.OutputLaws.{DashesBeginAtALoss, OutputsAreOne};

/// Where no power is lost, what `apdu` writes for an input is one.
#[tactic(auto, using(crate::proofs::OneOutput::output_laws))]
pub fn outputs_are_one()
    ensures { OutputsAreOne }
{}

/// The first line that is a dash stands at a command that may lose power there, and each exchange after it finds the card
/// without power.
#[tactic(auto, using(crate::proofs::OneLoss::loss_laws))]
pub fn dashes_begin_at_a_loss()
    ensures { DashesBeginAtALoss }
{}
