//! The exit statuses.
ghost use Rattle.std.specs.Prelude.{◌≡◌};
ghost use Rattle.bep_answer.specs.Status as spec;

use crate::outcome::{Certified, Firmness, Outcome, Partial};
use bep_report::ReportError;

/// The exit status for words that aren't understood, and for help.
pub const USAGE: u8 = 3;

/// The exit status: 0 settled, 1 not settled, 2 refused, 4 memory, 5 a read or write fault.
pub fn status_of(answer: Result<Outcome, ReportError>) -> u8
    ensures { result ≡ spec.status_of answer }
{
    match answer {
        Ok(Outcome::Settled) => 0,
        Ok(Outcome::NotSettled) => 1,
        Ok(Outcome::Refused) => 2,
        Err(ReportError::Memory) => 4,
        Err(ReportError::Read | ReportError::Write) => 5,
    }
}

/// The exit status where firm was asked for: 0 firm, 1 not firm, 2 refused, 4 memory, 5 a read or write fault.
pub fn firm_status_of(answer: Result<Firmness, ReportError>) -> u8
    ensures { result ≡ spec.firm_status_of answer }
{
    match answer {
        Ok(Firmness::Firm) => 0,
        Ok(Firmness::NotFirm) => 1,
        Ok(Firmness::Refused) => 2,
        Err(ReportError::Memory) => 4,
        Err(ReportError::Read | ReportError::Write) => 5,
    }
}

/// The exit status where a certificate was asked for: 0 written, 1 a name without a winner, 2 refused, 4 memory, 5 a read
/// or write fault.
pub fn certified_status_of(answer: Result<Certified, ReportError>) -> u8
    ensures { result ≡ spec.certified_status_of answer }
{
    match answer {
        Ok(Certified::Written) => 0,
        Ok(Certified::NoWinner) => 1,
        Ok(Certified::Refused) => 2,
        Err(ReportError::Memory) => 4,
        Err(ReportError::Read | ReportError::Write) => 5,
    }
}

/// The exit status where a certificate was asked for as far as there are winners: 0 written for all known names, 6 written
/// for those that have a winner, 2 refused, 4 memory, 5 a read or write fault.
pub fn partial_status_of(answer: Result<Partial, ReportError>) -> u8
    ensures { result ≡ spec.partial_status_of answer }
{
    match answer {
        Ok(Partial::Whole) => 0,
        Ok(Partial::Part) => 6,
        Ok(Partial::Refused) => 2,
        Err(ReportError::Memory) => 4,
        Err(ReportError::Read | ReportError::Write) => 5,
    }
}
