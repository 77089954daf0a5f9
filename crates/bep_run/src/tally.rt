//! What a turn counts.
ghost use Rattle.std.specs.Prelude.{◌≡◌, IfErr};
ghost use Rattle.bep_log.specs.declared.error.LogError.TheVariants.{Memory};
ghost use Rattle.bep_run.specs.Why.{IsOfTurns};
ghost use Rattle.bep_run.specs.inner.Tally.{passed_over, tally_of};
ghost use Rattle.bep_run.specs.inner.Tickets.{IsNotOld};

use crate::Origin;
use bep_log::LogError;

/// How many actions answered Ok once this one has answered too. A refused one is passed over; want of memory ends the turn. An
/// old ticket would end it, too: none is old that is drawn under the guards, so it isn't passed over in silence.
pub(crate) fn tally<O: Origin, T: Drop>(
    done: u64,
    answer: Result<T, LogError>,
) -> Result<u64, LogError>
    requires in_time { IfErr answer (IsNotOld O.table) }
    ensures value { result ≡ tally_of done answer }
    ensures only { IfErr result (IsOfTurns O.table) }
{
    match answer {
        Ok(_) => Ok(done.saturating_add(1)),
        Err(LogError::Memory) => Err(LogError::Memory),
        Err(LogError::TicketOld) => Err(LogError::TicketOld),
        Err(_) => Ok(done),
    }
}

/// What was read, or None where the reading was refused. Want of memory ends the turn.
pub(crate) fn read_or_pass<T: Drop>(answer: Result<T, LogError>) -> Result<Option<T>, LogError>
    ensures value { result ≡ passed_over answer }
    ensures only { IfErr result (λ e. e ≡ Memory) }
{
    match answer {
        Ok(found) => Ok(Some(found)),
        Err(LogError::Memory) => Err(LogError::Memory),
        Err(_) => Ok(None),
    }
}
