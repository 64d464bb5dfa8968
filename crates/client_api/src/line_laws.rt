// Laws of the tables.
ghost use Rattle.client_api.specs.Laws.{CallsEnd, CallsStayOnCards, LinesEnd, LinesHaveOneCall};

/// A call that has a further turn has had fewer than its turns at most, and fewer than its line has at most.
#[tactic(auto, using(crate::proofs::LineLaws::line_laws))]
pub fn calls_and_lines_end()
    ensures calls { CallsEnd }
    ensures lines { LinesEnd }
{}

/// A line of a script has one call, by the readers and the handles that there are.
#[tactic(auto, using(crate::proofs::LineLaws::line_laws))]
pub fn a_line_has_one_call()
    ensures { LinesHaveOneCall }
{}

/// The acts of a line's call are on the cards that the readers and the handles name.
#[tactic(auto, using(crate::proofs::CardLaws::calls_on))]
pub fn calls_stay_on_cards()
    ensures { CallsStayOnCards }
{}
