//! What prevails goes on prevailing, whatever orderly peers do. Each function does nothing; its contract is the law.
ghost use Rattle.bep_converge.specs.Laws.{ConvergeVerdictIsUnique, ConvergingIsFaultless, EndIsFirm, OrderlyRunsAreFree, PrevailingIsUnique, RunsKeepPrevailing, StepsKeepPrevailing, TakesAreBounded, TakesAreCounted, TopStays};

/// Each run of orderly peers is one of free peers.
pub fn orderly_runs_are_free()
    ensures { OrderlyRunsAreFree }
{}

/// A cut prevails exactly where none of the eight reasons fails anywhere.
pub fn converging_is_faultless()
    ensures { ConvergingIsFaultless }
{}

/// A cut has one verdict at most: converging, or the first reason that fails, at its first place.
pub fn converge_verdict_is_unique()
    ensures { ConvergeVerdictIsUnique }
{}

/// Of a name one version prevails at most, with one content.
pub fn prevailing_is_unique()
    ensures { PrevailingIsUnique }
{}

/// After each step of orderly peers from a cut that prevails, it prevails still, and the same records do. Each device has of
/// each name the very record and file that it had, or those of a record that was known and is above its own one. No name has
/// come, so there is no conflict copy.
pub fn steps_keep_prevailing()
    ensures { StepsKeepPrevailing }
{}

/// The same holds after every run of orderly peers.
pub fn runs_keep_prevailing()
    ensures { RunsKeepPrevailing }
{
    steps_keep_prevailing();
}

/// A device that is at the top with a record of its own goes on having this very record and file.
pub fn top_stays()
    ensures { TopStays }
{}

/// In a run of orderly peers from a cut that prevails, each step takes a record of a name over at a device or leaves record
/// and file there as they are. It takes over no more records than were known above the own one.
pub fn takes_are_bounded()
    ensures counted { TakesAreCounted }
    ensures bounded { TakesAreBounded }
{}

/// Where what prevails has come to all, and no device hears of a file that isn't deleted and of which it has no record, the
/// cut is firm for the list of its winners. So nothing changes any more.
pub fn end_is_firm()
    ensures { EndIsFirm }
{}
