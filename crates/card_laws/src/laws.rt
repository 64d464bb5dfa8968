// The laws. Each is the contract of a function that does nothing.
ghost use Rattle.card_laws.specs.LossLaws.{CutsLeaveTheMemory, UpsTellTheMemory, NothingMayBeTaken, ToldMayBeTaken, OffLeavesTheMemory, StartsWithTheBase};
ghost use Rattle.card_laws.specs.ApartLaws.{LoginsAreApart, ChannelsAreApart, FramesAreApart, ReselectingKeeps};
ghost use Rattle.card_laws.specs.FrameLaws.{CommandsAreLinked, PiecesAreFetched};
ghost use Rattle.card_laws.specs.NumberLaws.{HigherAreUnused, OpenAreCounted, OpenAreAsListed};
ghost use Rattle.card_laws.specs.PlanSteps.{PlansGoOn};
ghost use Rattle.card_laws.specs.RecordLaws.{OthersLeaveConnections, BreaksBeginAnew, OpeningsBeginAnew, PartsExtendTheChain, RestsTakeFromWhatWaits, BadsEndTheChain, CallsAreExecuted};
ghost use Rattle.card_laws.specs.StandsLaws.{AttachedAreOpen, OthersAreClosed, StandsOpened, StandsClosed, StandsNoted, StandsReset, StandsCut, ExchangesAreTurned, StandsExchanged, StandsLost, StandsUp};

/// A card that stands for a base and records stands for one record more after each act.
#[tactic(auto, using(crate::proofs::StandsLaws::stands_laws))]
pub fn cards_stand_for_one_record_more()
    ensures attached { AttachedAreOpen }
    ensures others { OthersAreClosed }
    ensures opened { StandsOpened }
    ensures closed { StandsClosed }
    ensures noted { StandsNoted }
    ensures reset { StandsReset }
    ensures cut { StandsCut }
    ensures turned { ExchangesAreTurned }
    ensures exchanged { StandsExchanged }
    ensures lost { StandsLost }
    ensures up { StandsUp }
{}

/// How a connection changes by one record more.
#[tactic(auto, using(crate::proofs::ConnectionLaws::attached_steps))]
pub fn one_record_more()
    ensures others { OthersLeaveConnections }
    ensures breaks { BreaksBeginAnew }
    ensures opened { OpeningsBeginAnew }
    ensures part { PartsExtendTheChain }
    ensures rest { RestsTakeFromWhatWaits }
    ensures bad { BadsEndTheChain }
    ensures call { CallsAreExecuted }
{}

/// No connection changes a login of another, its application, its pending block, its chain or the
/// data that it may still fetch.
#[tactic(auto, using(crate::proofs::Apart::apart_laws))]
pub fn connections_are_apart()
    ensures logins { LoginsAreApart }
    ensures channels { ChannelsAreApart }
    ensures frames { FramesAreApart }
    ensures reselecting { ReselectingKeeps }
{}

/// Connections are numbered from 1, each number is used once, and as many are open as a list has
/// that holds each of them once.
#[tactic(auto, using(crate::proofs::Numbers::number_laws, crate::proofs::Counting::counting_laws))]
pub fn connections_are_numbered()
    ensures unused { HigherAreUnused }
    ensures counted { OpenAreCounted }
    ensures listed { OpenAreAsListed }
{}

/// A loss of power leaves the memory, and what the card says of the command in flight tells what
/// became of it.
#[tactic(auto, using(crate::proofs::LossLaws::loss_laws))]
pub fn losses_are_whole()
    ensures start { StartsWithTheBase }
    ensures cuts { CutsLeaveTheMemory }
    ensures ups { UpsTellTheMemory }
    ensures nothing { NothingMayBeTaken }
    ensures told { ToldMayBeTaken }
    ensures off { OffLeavesTheMemory }
{}

/// What an exchange's bytes are goes by the open chain and by what waits.
#[tactic(auto, using(crate::proofs::FrameTies::frame_ties))]
pub fn frames_follow_the_chain()
    ensures linked { CommandsAreLinked }
    ensures fetched { PiecesAreFetched }
{}

/// A plan of losses goes on by every entry.
#[tactic(auto, using(crate::proofs::PlanLaws::plan_laws))]
pub fn plans_go_on()
    ensures go_on { PlansGoOn }
{}
