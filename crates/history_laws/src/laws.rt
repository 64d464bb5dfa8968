// The laws. Each is the contract of a function that does nothing.
ghost use Rattle.history_laws.specs.DataLaws.{OthersHaveNoData};
ghost use Rattle.history_laws.specs.MemoryLaws.{MemoriesAreSound, SomeThingsLast};
ghost use Rattle.history_laws.specs.PlannedLaws.{LossesAreFew};
ghost use Rattle.history_laws.specs.RecoveryLaws.{WritersLosePower, RecoveryKeepsAPrefix, IdleLossesChangeNothing, WhatIsLeftCanBeSaid, TheFirstIsSaid};

/// Only a command that writes loses power; the memory is the one before it, that with one try less, or the one after it.
#[tactic(auto, using(crate::proofs::Recovery::recovery_laws))]
pub fn recovery_keeps_a_prefix()
    ensures writers { WritersLosePower }
    ensures prefix { RecoveryKeepsAPrefix }
    ensures idle { IdleLossesChangeNothing }
    ensures said { WhatIsLeftCanBeSaid }
    ensures first { TheFirstIsSaid }
{}

/// Commands lose power at most as often as the plan of losses has numbers.
#[tactic(auto, using(crate::proofs::Planned::planned_laws))]
pub fn losses_are_few()
    ensures { LossesAreFew }
{}

/// A card that begins with a memory that a card can have keeps one, with its keys and its budget.
#[tactic(auto, using(crate::proofs::Soundness::memory_laws))]
pub fn memories_are_sound()
    ensures sound { MemoriesAreSound }
    ensures lasting { SomeThingsLast }
{}

/// No comparison, query, logout or PUT DATA tells more than its word.
#[tactic(auto, using(crate::proofs::Data::data_laws))]
pub fn only_reads_and_keys_give_data()
    ensures { OthersHaveNoData }
{}
