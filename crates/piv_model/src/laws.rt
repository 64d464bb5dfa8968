// Laws of the definitions. Each is the contract of a function that does nothing.
ghost use Rattle.piv_model.specs.SoundLaws.{SpendingKeepsSound, FillingKeepsSound, RenewingKeepsSound, UnblockingKeepsSound, PuttingKeepsSound, SoundIsValid};

/// A memory that a card can have stays one, whatever a store does to it, and a card that begins with one is valid.
pub fn sound_memories_stay_sound()
    ensures spent { SpendingKeepsSound }
    ensures filled { FillingKeepsSound }
    ensures renewed { RenewingKeepsSound }
    ensures unblocked { UnblockingKeepsSound }
    ensures put { PuttingKeepsSound }
    ensures valid { SoundIsValid }
{}
