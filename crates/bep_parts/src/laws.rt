//! That the parts of a cut say together what the whole says. Each function does nothing; its contract is the law.
ghost use Rattle.bep_parts.specs.Laws.{DocumentsSayOnly, FaultsByParts, FirmByManyParts, FirmByParts, FirmFaultsByParts, FirmVerdictByParts, MergedIsFirm, MergedIsSettled, PartsOfFirm, PartsOfSettled, SettledByManyParts, SettledByParts, VerdictByParts};

use bep_choice::laws::choice_is_unique;

/// A cut is settled for rows that rise exactly where each of its parts is settled for its own of these rows: of two parts,
/// and of any number of parts by which each name is kept.
pub fn settled_by_parts()
    ensures two { SettledByParts }
    ensures many { SettledByManyParts }
    ensures back { PartsOfSettled }
{}

/// The same for firm.
pub fn firm_by_parts()
    ensures two { FirmByParts }
    ensures many { FirmByManyParts }
    ensures back { PartsOfFirm }
{}

/// A reason fails at a place of a part exactly where it fails there in the whole and the part keeps the name: of the twelve
/// reasons, and of the four of firm.
pub fn faults_by_parts()
    ensures settled { FaultsByParts }
    ensures firm { FirmFaultsByParts }
{}

/// The verdict on a cut is the first of the verdicts on its parts, if each name is in some part: by the number of its reason,
/// then by folder, name and device. The same where firm is asked for.
pub fn verdict_by_parts()
    ensures settled { VerdictByParts }
    ensures firm { FirmVerdictByParts }
{}

/// Where each part is settled for rows of its own, and each known name is kept by some part, the whole is settled for
/// exactly the rows of all parts, put in order. The same for firm.
pub fn merged_is_settled()
    ensures settled { MergedIsSettled }
    ensures firm { MergedIsFirm }
{
    choice_is_unique();
}

/// A cut that was made of another one by names says exactly what that one says of these names: the part has all that the
/// whole has of them, no other name, and all else as it is.
pub fn documents_say_only()
    ensures { DocumentsSayOnly }
{}
