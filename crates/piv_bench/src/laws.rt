// Laws of runs.
ghost use Rattle.piv_bench.specs.Laws.{RunsShareOut};

/// A run of a scene is a sharing-out: each place of a card's records is in exactly one script's share, and each script
/// plays its share to its end.
pub fn runs_share_out()
    ensures { RunsShareOut }
{}
