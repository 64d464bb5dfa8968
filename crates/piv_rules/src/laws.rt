// The laws. Each is the contract of a function that does nothing.
ghost use Rattle.piv_rules.specs.EntryLaws.{TriesSteps, MemorySteps, RunsAreLegal};

/// The tries and the memory after one more entry.
#[tactic(auto, using(crate::proofs::StepLaws::step_laws))]
pub fn one_entry_more()
    ensures tries { TriesSteps }
    ensures memory { MemorySteps }
{}

/// The history of every run is legal.
#[tactic(auto, using(crate::proofs::Legality::legality_laws))]
pub fn runs_are_legal()
    ensures { RunsAreLegal }
{}
