// The worked examples. Each is the contract of a function that does nothing.
ghost use Rattle.history_examples.specs.ActExamples.{ExchangeRefusals, ConnectRefusals, EpochsAreTold, LossesAreMute, NotesHaveCauses, OffIsNotedFirst};
ghost use Rattle.history_examples.specs.BlockExamples.{FifthBlock, ChallengesGoOn};
ghost use Rattle.history_examples.specs.FormExamples.{PinForms, PivName, TagLists, ValuesUnderTags, DiscoveryForms, NewValues, TemplateForms};
ghost use Rattle.history_examples.specs.LimitExamples.{PieceWords, LongestChain, ChainTooLong, SeventeenthConnection, LastRests, RestsFollowReplies, WordsOfFraming, LossesAreInWriters, CommandCosts};
ghost use Rattle.history_examples.specs.ParameterExamples.{ParametersComeFirst, ReferencesAreKnown, NewPukUnblocks, NoOtherCommand, BytesOfCommands, ClassesOfCommands};
ghost use Rattle.history_examples.specs.PolicyExamples.{PolicyOfThePin, PolicyOfBoth};
ghost use Rattle.history_examples.specs.RefusalExamples.{VerifyRefusals, GetResponseRefusals, DiscoveryUnderATagList, FieldsStandOnce, MutualWithAnEmptyResponse, FetchesInAChain, DiscoveryIsGiven, KeysHaveTheirForms};
ghost use Rattle.history_examples.specs.RoomExamples.{RoomIsExact, LongestValue, LimitsOfCounters, SizesOfKeys, UnsoundMemories, RulesOfObjects};

/// What the plain card makes of the last number that fits, and of the next one.
#[tactic(auto, using(crate::proofs::LimitRows::limit_rows))]
pub fn limits_are_exact()
    ensures words { PieceWords }
    ensures chain { LongestChain }
    ensures too_long { ChainTooLong }
    ensures sixteen { SeventeenthConnection }
    ensures rests { LastRests }
    ensures after { RestsFollowReplies }
    ensures framing { WordsOfFraming }
    ensures losses { LossesAreInWriters }
    ensures costs { CommandCosts }
{}

/// Which refusal comes where two of them meet, and what a form admits.
#[tactic(auto, using(crate::proofs::RefusalRows::refusal_rows))]
pub fn two_refusals_meet()
    ensures verify { VerifyRefusals }
    ensures get_response { GetResponseRefusals }
    ensures discovery { DiscoveryUnderATagList }
    ensures fields { FieldsStandOnce }
    ensures mutual { MutualWithAnEmptyResponse }
    ensures chain { FetchesInAChain }
    ensures given { DiscoveryIsGiven }
    ensures keys { KeysHaveTheirForms }
{}

/// Which refusal of an act comes first, and which epochs are told.
#[tactic(auto, using(crate::proofs::ActRows::act_rows))]
pub fn acts_are_answered_in_order()
    ensures exchange { ExchangeRefusals }
    ensures connect { ConnectRefusals }
    ensures epochs { EpochsAreTold }
    ensures mute { LossesAreMute }
    ensures notes { NotesHaveCauses }
    ensures off { OffIsNotedFirst }
{}

/// The Global PIN opens what asks for a PIN by the policy of the Discovery Object alone.
#[tactic(auto, using(crate::proofs::PolicyRows::policy_rows))]
pub fn global_pins_count_by_the_policy()
    ensures pin { PolicyOfThePin }
    ensures both { PolicyOfBoth }
{}

/// The blocks that a card draws are the bytes of ChaCha20, one after the other.
#[tactic(auto, using(crate::proofs::BlockRows::block_rows))]
pub fn blocks_are_those_of_chacha()
    ensures fifth { FifthBlock }
    ensures go_on { ChallengesGoOn }
{}

/// The nearest value that has a form, and the nearest that hasn't.
#[tactic(auto, using(crate::proofs::FormRows::form_rows))]
pub fn forms_are_exact()
    ensures pin { PinForms }
    ensures name { PivName }
    ensures tag_lists { TagLists }
    ensures values { ValuesUnderTags }
    ensures discovery { DiscoveryForms }
    ensures new_values { NewValues }
    ensures templates { TemplateForms }
{}

/// Which headers a command has, and which bytes are a command.
#[tactic(auto, using(crate::proofs::ParameterRows::parameter_rows))]
pub fn headers_are_known()
    ensures parameters { ParametersComeFirst }
    ensures references { ReferencesAreKnown }
    ensures new_puk { NewPukUnblocks }
    ensures others { NoOtherCommand }
    ensures bytes { BytesOfCommands }
    ensures classes { ClassesOfCommands }
{}

/// The room of a card, the memories that a card can have, and the rules of its objects.
#[tactic(auto, using(crate::proofs::RoomRows::room_rows))]
pub fn memories_have_their_limits()
    ensures room { RoomIsExact }
    ensures longest { LongestValue }
    ensures counters { LimitsOfCounters }
    ensures keys { SizesOfKeys }
    ensures unsound { UnsoundMemories }
    ensures rules { RulesOfObjects }
{}
