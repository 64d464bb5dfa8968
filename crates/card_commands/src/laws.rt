// Laws of the definitions. Each is the contract of a function that does nothing.
ghost use Rattle.card_commands.specs.LossLaws.{LossesAreTold, OnlyWritesAreLost};
ghost use Rattle.card_commands.specs.TableWords.{ComparesByTheTable, PutsByTheTable};

/// Where PIV is selected and the access rule holds, the words of comparisons and of puts are those of the table of answers.
pub fn words_are_those_of_the_table()
    ensures compare { ComparesByTheTable }
    ensures put { PutsByTheTable }
{}

/// What is said of a command that lost power, by its `Broken` and the store that stands, is what it did, and may be said.
/// Only a comparison or a put that would have been answered 90 00 or 63 CX loses power.
pub fn losses_are_told()
    ensures told { LossesAreTold }
    ensures words { OnlyWritesAreLost }
{}
