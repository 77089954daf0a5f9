//! What follows from the definitions alone. Each function does nothing; its contract is the law.
ghost use Rattle.bep_model.specs.Laws.{RowsRiseInOrder, NumbersAreWithin, NumbersDiffer, WinnerIsUnique, SettledIsFaultless, VerdictIsUnique, VerdictExists, SettledIsListOfWinners, ListOfWinnersIsUnique, CertificateIsUnique, WinnersAreSettledIfAny, WinnersLeaveNoneOut, FirstWithoutIsUnique, WinnersOrFirstWithout, SettledIsCalm, CalmStays, CalmIsSettledAgain, FirmStaysFirm, FirmIsFaultless, FirmVerdictIsUnique};

use bep_choice::laws::{choice_exists, choice_is_unique};

/// Rows rise exactly where none is out of order.
pub fn rows_rise_in_order()
    ensures { RowsRiseInOrder }
{}

/// The reasons have the numbers from 1 to 12, each its own.
pub fn reasons_are_numbered()
    ensures within { NumbersAreWithin }
    ensures different { NumbersDiffer }
{}

/// A name has one winner at most.
pub fn winner_is_unique()
    ensures { WinnerIsUnique }
{
    choice_is_unique();
}

/// Settled holds exactly where no reason fails anywhere.
pub fn settled_is_faultless()
    ensures { SettledIsFaultless }
{}

/// A cut and a list of rows have one verdict at most.
pub fn verdict_is_unique()
    ensures { VerdictIsUnique }
{}

/// There is a verdict on every cut in which finitely many devices are viewed and finitely many names are known.
pub fn verdict_exists()
    ensures { VerdictExists }
{
    choice_exists();
    choice_is_unique();
}

/// The rows of a settled cut are the winners of the known names, in order. A cut has at most one such list. So it is
/// settled for at most one list of rows; if it is settled for any list, it is for the list of winners.
pub fn certificate_is_unique()
    ensures winners { SettledIsListOfWinners }
    ensures one_list { ListOfWinnersIsUnique }
    ensures certificate { CertificateIsUnique }
    ensures settled_if_any { WinnersAreSettledIfAny }
{
    choice_is_unique();
}

/// No cut has both a list of winners and a known name without a winner. At most one such name comes first.
///
/// A cut has the one or the other if finitely many names are known, and each own record has the name that it stands at.
pub fn winners_or_first_without()
    ensures not_both { WinnersLeaveNoneOut }
    ensures one_first { FirstWithoutIsUnique }
    ensures either { WinnersOrFirstWithout }
{
    choice_exists();
}

/// A settled cut is calm for the contents that its rows name, whichever devices were reset.
pub fn settled_is_calm()
    ensures { SettledIsCalm }
{}

/// A later cut that is calm for a settled cut's contents, and whose stores are kept, is as the certificate says: only a
/// device that was reset may lack a record.
pub fn calm_stays()
    ensures { CalmStays }
{
    choice_is_unique();
}

/// If no device was reset and no record went away, such a cut is settled for its own winners. Their names and contents are
/// the certificate's.
pub fn calm_is_settled_again()
    ensures { CalmIsSettledAgain }
{
    choice_exists();
    choice_is_unique();
}

/// What is firm stays firm, for the same rows: after every run of free peers each sharing device has the very records and
/// the very files that it had.
pub fn firm_stays_firm()
    ensures { FirmStaysFirm }
{}

/// A settled cut is firm exactly where none of the four reasons fails anywhere.
pub fn firm_is_faultless()
    ensures { FirmIsFaultless }
{}

/// A cut and a list of rows have one verdict at most, also where firm is asked for.
pub fn firm_verdict_is_unique()
    ensures { FirmVerdictIsUnique }
{}
