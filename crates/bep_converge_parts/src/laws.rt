//! That the parts of a cut say together whether it converges. Each function does nothing; its contract is the law.
ghost use Rattle.bep_converge_parts.specs.Laws.{ConvergeFaultsByParts, ConvergeVerdictByParts};

use bep_converge::converging_is_faultless;

/// A reason fails at a place of a part exactly where it fails there in the whole and the part keeps the name.
pub fn converge_faults_by_parts()
    ensures { ConvergeFaultsByParts }
{}

/// The verdict on a cut is the first of the verdicts on its parts, if each known name is in some part: by the number of its reason,
/// then by folder, name and device.
pub fn converge_verdict_by_parts()
    ensures { ConvergeVerdictByParts }
{
    converging_is_faultless();
}
