//! Logs that agree have one merged list. Each function does nothing; its contract is the law.
ghost use Rattle.bep_fit.specs.FitLaws.{FaultlessLogsAgree, FaultlessLogsMerge, LogsFitExactly, MergedIsOne};

/// No event is at fault exactly if the logs agree: in each the tickets rise, an event stands with its one ticket in the log of
/// every object that it touches and in no other, and what it names has a log.
pub fn faultless_logs_agree()
    ensures { FaultlessLogsAgree }
{}

/// Logs in which no event is at fault have one merged list, which holds each event once, by rising ticket. Each object's log
/// is what touches the object in that list, in the list's order.
pub fn faultless_logs_merge()
    ensures merged { FaultlessLogsMerge }
    ensures one { MergedIsOne }
{}

/// Logs fit exactly if they are of one round and there is one list of events, by rising ticket, of which each object's log is
/// what touches the object, in that order. The count is its length.
pub fn logs_fit_exactly()
    ensures { LogsFitExactly }
{}
