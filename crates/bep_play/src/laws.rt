//! What follows from the definitions of a scenario's end. The function does nothing; its contract has the laws.
ghost use Rattle.bep_play.specs.Laws.{DocumentIsUnique, EndIsUnique, RunIsUnique};

use bep_answer::answers_are_unique;
use bep_cut::same_cluster_same_cut;
use bep_machine::runs_are_determined;

/// A scenario leads to one cut at most, of which its report and its document both tell; so its bytes have one run at most,
/// outcome and text, and one document of its end.
pub fn ends_are_unique()
    ensures end { EndIsUnique }
    ensures run { RunIsUnique }
    ensures document { DocumentIsUnique }
{
    runs_are_determined();
    same_cluster_same_cut();
    answers_are_unique();
}
