// The laws. Each is the contract of a function that does nothing.
ghost use Rattle.login_laws.specs.ApplicationLaws.{SelectionsLast, IdleEndsLogins, RefusalsLeaveLogins, BreaksLeaveNothing};
ghost use Rattle.login_laws.specs.AskLaws.{AsksAreProper};
ghost use Rattle.login_laws.specs.GlobalLaws.{NoCommandNamesIt, ItIsNeverInForce, ThePinAloneOpens};
ghost use Rattle.login_laws.specs.LoginLaws.{LoginsAreInForce, RulesHoldForTheEntitled, PinsArePresented, GlobalPinsArePresented};
ghost use Rattle.login_laws.specs.TriesLaws.{TriesAddUp, TriesAreWithin, OnlyMatchesRaise, MissesTakeOne, MatchesFill, UnblockingsFillThePin, UpsTellTheTries, MissesLeaveOthers, OthersLeaveTheTries, SpendsHadATry, LossesHadATry};

/// A login is in force exactly where a command logged in and nothing since ended it, and a rule holds by such logins alone.
#[tactic(auto, using(crate::proofs::Logins::login_laws, crate::proofs::Presented::presented_laws))]
pub fn logins_last_until_they_are_ended()
    ensures in_force { LoginsAreInForce }
    ensures rules { RulesHoldForTheEntitled }
    ensures pins { PinsArePresented }
    ensures global_pins { GlobalPinsArePresented }
{}

/// Tries left and tries spent since the last filling add up; a match alone raises them, and what is spent had a try to spend.
#[tactic(auto, using(crate::proofs::Tries::tries_laws))]
pub fn tries_add_up()
    ensures add_up { TriesAddUp }
    ensures within { TriesAreWithin }
    ensures raised { OnlyMatchesRaise }
    ensures misses { MissesTakeOne }
    ensures matches { MatchesFill }
    ensures unblockings { UnblockingsFillThePin }
    ensures ups { UpsTellTheTries }
    ensures apart { MissesLeaveOthers }
    ensures others { OthersLeaveTheTries }
    ensures spent { SpendsHadATry }
    ensures lost { LossesHadATry }
{}

/// PIV is selected until idle is, or a break; idle leaves the Global PIN's login alone, a refusal each, a break nothing.
#[tactic(auto, using(crate::proofs::Selections::application_laws))]
pub fn applications_change_by_select()
    ensures selected { SelectionsLast }
    ensures idle { IdleEndsLogins }
    ensures refusals { RefusalsLeaveLogins }
    ensures breaks { BreaksLeaveNothing }
{}

/// What a command asks names references and places that the card has, and values of their forms.
#[tactic(auto, using(crate::proofs::Asking::ask_laws))]
pub fn commands_ask_what_the_card_has()
    ensures { AsksAreProper }
{}

/// On a card without a Global PIN nothing names it, its login is never in force, and the PIN alone opens what asks for it.
#[tactic(auto, using(crate::proofs::Globals::global_laws))]
pub fn without_a_global_pin_nothing_is_global()
    ensures named { NoCommandNamesIt }
    ensures in_force { ItIsNeverInForce }
    ensures opens { ThePinAloneOpens }
{}
