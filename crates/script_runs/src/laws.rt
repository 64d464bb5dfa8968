// Laws of runs.
ghost use Rattle.script_runs.specs.Laws.{ScheduledRunsShareOut, ScriptsUseTheirOwn, SharesNeverFill};

/// A scheduled run is a sharing-out of the records of its cards.
pub fn scheduled_runs_share_out()
    ensures { ScheduledRunsShareOut }
{}

/// Each record of a script that names a connection stands behind the script's own connect that opened it.
pub fn scripts_use_their_own()
    ensures { ScriptsUseTheirOwn }
{}

/// Where the shares of scripts have all records of the cards, and each card has turns for all lines, no turn is answered
/// Full.
pub fn shares_never_fill()
    ensures { SharesNeverFill }
{}
