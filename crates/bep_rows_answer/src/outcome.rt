//! What is answered to a stream of rows.
ghost use Rattle.std.specs.Prelude.{◌≡◌};
ghost use Rattle.bep_rows_answer.specs.Outcome as spec;

use bep_answer::{Firmness, Outcome};
use bep_rows::Standing;

/// What is answered to a stream of rows.
#[derive(Clone, Copy, Debug, PartialEq, Eq)]
pub enum RowsOutcome {
    /// The cut for which the rows stand is what was asked of it.
    Met,
    /// It isn't.
    NotMet,
    /// A line of the stream couldn't be read.
    Refused,
}

impl RowsOutcome {
    // The outcome of what is answered of all names.
    pub(crate) fn of(standing: &Standing) -> Self
        ensures { result ≡ spec.outcome_of standing.now }
    {
        match standing {
            Standing::Met => RowsOutcome::Met,
            Standing::Not(..) => RowsOutcome::NotMet,
            Standing::Loose(..) => RowsOutcome::NotMet,
            Standing::Unwon(..) => RowsOutcome::NotMet,
        }
    }

    /// The same where it was asked whether the cut is settled.
    pub fn settled(self) -> Outcome
        ensures { result ≡ spec.settled_outcome self }
    {
        match self {
            RowsOutcome::Met => Outcome::Settled,
            RowsOutcome::NotMet => Outcome::NotSettled,
            RowsOutcome::Refused => Outcome::Refused,
        }
    }

    /// The same where it was asked whether it is firm.
    pub fn firmness(self) -> Firmness
        ensures { result ≡ spec.firmness_of self }
    {
        match self {
            RowsOutcome::Met => Firmness::Firm,
            RowsOutcome::NotMet => Firmness::NotFirm,
            RowsOutcome::Refused => Firmness::Refused,
        }
    }
}
