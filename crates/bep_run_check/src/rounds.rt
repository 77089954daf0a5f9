//! Whether all logs are of one round.
ghost use Rattle.std.specs.Prelude.{◌≡◌, ◌==◌, not};
ghost use Rattle.std.specs.List.{find};
ghost use Rattle.std.specs.Option.{option_copied};
ghost use Rattle.bep_fit.specs.Fit.{first_round};
ghost use Rattle.bep_fit.specs.Logs.{ObjectLog as LogOf};

use crate::ObjectLog;

// The first log whose round isn't that of the first log.
pub(crate) fn first_of_other_round(logs: &[ObjectLog]) -> Option<&ObjectLog>
    ensures { option_copied result ≡ find (λ (log : LogOf). not (log.round == first_round logs.now)) logs.now }
{
    let round = first_round(logs);
    logs.iter().find(|log| log.round() != round)
}

fn first_round(logs: &[ObjectLog]) -> u64
    ensures { result ≡ first_round logs.now }
{
    match logs {
        [] => 0,
        [log, ..] => log.round(),
    }
}
