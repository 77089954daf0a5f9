//! What follows from the definitions of answers. The functions do nothing; their contracts have the laws.
ghost use Rattle.bep_answer.specs.Laws.{AnswerUnderWinnersIsUnique, AuditIsUnique, CheckAnswersAsUnderWinners, CutAnswerIsUnique, DocumentAnswerIsUnique, FirmAnswerUnderWinnersIsUnique, FirmAnswersAsUnderWinners, FirmAuditIsUnique, ReportUnderIsUnique};

use bep_cut_document::cuts_of_documents_have_room;
use bep_model::{
    certificate_is_unique, firm_verdict_is_unique, verdict_is_unique, winners_or_first_without,
};

/// The definitions of answers leave an answer no choice: the bytes of a document have one audit at most, outcome and text,
/// one where firm is asked for, and one answer where a certificate is asked for, as a cut has; a cut has one report at most
/// under its winners, and the bytes of a document have one such answer, and one where firm is asked for.
pub fn answers_are_unique()
    ensures audit { AuditIsUnique }
    ensures firm { FirmAuditIsUnique }
    ensures of_cut { CutAnswerIsUnique }
    ensures certified { DocumentAnswerIsUnique }
    ensures report_under { ReportUnderIsUnique }
    ensures under_winners { AnswerUnderWinnersIsUnique }
    ensures firm_under_winners { FirmAnswerUnderWinnersIsUnique }
{
    verdict_is_unique();
    firm_verdict_is_unique();
    certificate_is_unique();
    winners_or_first_without();
}

/// What is answered to a document under its cut's winners is what is answered to the document that is written where the
/// cut's certificate is asked for.
pub fn certify_then_check()
    ensures check { CheckAnswersAsUnderWinners }
    ensures firm { FirmAnswersAsUnderWinners }
{
    cuts_of_documents_have_room();
}
