// Worked examples on the plain card. Each is the contract of a function that does nothing.
ghost use Rattle.std.specs.Prelude.{IsTrue};
ghost use Rattle.piv_model.specs.Base.{is_valid};
ghost use Rattle.history_examples.specs.Examples.{plain, LoginOpens, IdleEndsTheLogin, WrongPinsBlock, PukUnblocks, ChangeLogsIn, WrongPukEndsTheLogin, ChallengeIsTheBlock, ChallengeIsAnsweredOnce, WitnessIsAnswered, PartsJoin, OtherHeadersAreRefused, PiecesEnd, WrongLoginLost, LossesBlock, RightLoginLost, RightLoginDone, UnblockingLost, PutLost, LossesArePlanned};
ghost use Rattle.history_examples.specs.ConnectionExamples.{with_global, ContactlessServesLittle, GlobalPinOpens, ExclusiveLocks};

/// What the plain card answers to commands that come one after the other.
#[tactic(auto, using(crate::proofs::ExampleRows::example_rows, crate::proofs::ChallengeExample::challenge_rows))]
pub fn answers_on_the_plain_card()
    ensures valid { IsTrue (is_valid plain) }
    ensures login_opens { LoginOpens }
    ensures idle_ends { IdleEndsTheLogin }
    ensures wrong_pins_block { WrongPinsBlock }
    ensures puk_unblocks { PukUnblocks }
    ensures change_logs_in { ChangeLogsIn }
    ensures wrong_puk_ends { WrongPukEndsTheLogin }
    ensures challenge { ChallengeIsTheBlock }
    ensures answered_once { ChallengeIsAnsweredOnce }
    ensures witness { WitnessIsAnswered }
{}

/// How the parts of a chain and the pieces of a reply go.
#[tactic(auto, using(crate::proofs::ExampleRows::example_rows))]
pub fn parts_and_pieces_on_the_plain_card()
    ensures parts_join { PartsJoin }
    ensures other_headers { OtherHeadersAreRefused }
    ensures pieces_end { PiecesEnd }
{}

/// What the plain card may say after a loss of power.
#[tactic(auto, using(crate::proofs::ExampleRows::example_rows))]
pub fn losses_on_the_plain_card()
    ensures wrong_login { WrongLoginLost }
    ensures losses_block { LossesBlock }
    ensures right_login { RightLoginLost }
    ensures right_after_wrong { RightLoginDone }
    ensures unblocking { UnblockingLost }
    ensures put { PutLost }
    ensures planned { LossesArePlanned }
{}

/// What a connection on contactless is answered, what a Global PIN opens, and when an interface is locked.
#[tactic(auto, using(crate::proofs::ConnectionRows::connection_rows))]
pub fn connections_on_the_plain_card()
    ensures contactless { ContactlessServesLittle }
    ensures valid { IsTrue (is_valid with_global) }
    ensures global_pin { GlobalPinOpens }
    ensures locked { ExclusiveLocks }
{}
