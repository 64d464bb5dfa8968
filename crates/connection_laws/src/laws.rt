// The laws. Each is the contract of a function that does nothing.
ghost use Rattle.connection_laws.specs.ChallengeLaws.{ChallengesFollowRequests, WitnessesFollowRequests, ResponsesAnswerChallenges, MutualsAnswerWitnesses, BlocksComeInTurn, RequestsBearBlocks};
ghost use Rattle.connection_laws.specs.OpenLaws.{OpenWereOpened, OpenAreListed, AtMostSixteenAreOpen, ExclusiveAreAlone, NumbersAreUsedOnce, ClosedAreClosed};
ghost use Rattle.connection_laws.specs.PieceLaws.{PiecesJoin, WordsTellWhatIsLeft, PiecesFollowReplies};
ghost use Rattle.connection_laws.specs.PowerLaws.{OffSinceALoss, OffCardsDoNothing, OpenOnesExchange, EpochsTellBreaks};

/// A connection is open from its opening to its closing, under a number of its own, one of sixteen, and alone if exclusive.
#[tactic(auto, using(crate::proofs::Openings::opening_laws))]
pub fn connections_open_once()
    ensures opened { OpenWereOpened }
    ensures listed { OpenAreListed }
    ensures sixteen { AtMostSixteenAreOpen }
    ensures alone { ExclusiveAreAlone }
    ensures once { NumbersAreUsedOnce }
    ensures closed { ClosedAreClosed }
{}

/// A challenge or a Witness is answered once, by the connection's next command, and blocks come in their turn.
#[tactic(auto, using(crate::proofs::Challenges::challenge_laws))]
pub fn challenges_are_answered_once()
    ensures challenges { ChallengesFollowRequests }
    ensures witnesses { WitnessesFollowRequests }
    ensures responses { ResponsesAnswerChallenges }
    ensures mutuals { MutualsAnswerWitnesses }
    ensures turn { BlocksComeInTurn }
    ensures borne { RequestsBearBlocks }
{}

/// A card is off exactly since a loss of power, and then does nothing; an epoch tells whether a connection was broken.
#[tactic(auto, using(crate::proofs::Power::power_laws))]
pub fn power_and_epochs_are_told()
    ensures off { OffSinceALoss }
    ensures nothing { OffCardsDoNothing }
    ensures open { OpenOnesExchange }
    ensures epochs { EpochsTellBreaks }
{}

/// A piece follows a reply; the data of both and those that wait are the answer's, and each word tells what is left.
#[tactic(auto, using(crate::proofs::Pieces::piece_laws, crate::proofs::Fetching::fetching_laws))]
pub fn pieces_join()
    ensures join { PiecesJoin }
    ensures words { WordsTellWhatIsLeft }
    ensures follow { PiecesFollowReplies }
{}
