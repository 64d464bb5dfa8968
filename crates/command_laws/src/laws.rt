// The laws. Each is the contract of a function that does nothing.
ghost use Rattle.command_laws.specs.SpendLaws.{SpendsAreLimited, ComparisonsAreLimited};
ghost use Rattle.command_laws.specs.LastingLaws.{ObjectsLast, SecretsLast, UnblockedPinsLast};
ghost use Rattle.command_laws.specs.UseLaws.{UsesAreEntitled, OnlyWrongResponsesAreDenied};
ghost use Rattle.command_laws.specs.AnswerWords.{SelectWords, RefusedWords, GetWords, PutWords, CompareWords, QueryWords, LogoutWords, RequestWords, ResponseWords, InternalWords, RefusalsAreListed, AnswersAreListed, RefusalsHaveNoData};

/// Each status word comes exactly where the rules of the asked command say so.
#[tactic(auto, using(crate::proofs::WordLaws::word_laws))]
pub fn words_have_their_causes()
    ensures select { SelectWords }
    ensures refused { RefusedWords }
    ensures get { GetWords }
    ensures put { PutWords }
    ensures compare { CompareWords }
    ensures query { QueryWords }
    ensures logout { LogoutWords }
    ensures request { RequestWords }
    ensures response { ResponseWords }
    ensures internal { InternalWords }
    ensures refusals { RefusalsAreListed }
    ensures listed { AnswersAreListed }
    ensures no_data { RefusalsHaveNoData }
{}

/// An object is given, and a key used, only by its rule, and by a login of that connection with no break
/// since; where the rule holds, 69 82 says that a response is wrong.
#[tactic(auto, using(crate::proofs::Uses::use_laws))]
pub fn commands_are_entitled()
    ensures entitled { UsesAreEntitled }
    ensures wrong { OnlyWrongResponsesAreDenied }
{}

/// No reference is compared beyond its limit between fillings.
#[tactic(auto, using(crate::proofs::Limits::limit_laws))]
pub fn spends_are_limited()
    ensures spends { SpendsAreLimited }
    ensures comparisons { ComparisonsAreLimited }
{}

/// What was acknowledged is in the memory, over any loss of power, until an accepted command
/// changes it.
#[tactic(auto, using(crate::proofs::Lasting::lasting_laws))]
pub fn what_is_acknowledged_lasts()
    ensures objects { ObjectsLast }
    ensures secrets { SecretsLast }
    ensures unblocked { UnblockedPinsLast }
{}
