//! The exit status where it was asked whether a cut converges.
ghost use Rattle.std.specs.Prelude.{◌≡◌};
ghost use Rattle.bep_converge_answer.specs.Status as spec;

use crate::outcome::Convergence;
use bep_report::ReportError;

/// The exit status: 0 converging, 1 not converging, 2 refused, 4 memory, 5 a read or write fault.
pub fn converge_status_of(answer: Result<Convergence, ReportError>) -> u8
    ensures { result ≡ spec.converge_status_of answer }
{
    match answer {
        Ok(Convergence::Converging) => 0,
        Ok(Convergence::NotConverging) => 1,
        Ok(Convergence::Refused) => 2,
        Err(ReportError::Memory) => 4,
        Err(ReportError::Read | ReportError::Write) => 5,
    }
}
