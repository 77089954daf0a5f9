//! What holds of records by their type. The functions change nothing; their contracts are the facts.
ghost use Rattle.std.specs.List.{AllByRecursion};
ghost use Rattle.std.specs.Option.{option_copied};
ghost use Rattle.bep_index.specs.Good.{IsGood, IsGoodIfThere};

use bep_record::Record;

/// A record is well formed, and so is its version.
pub fn record_is_good(entry: &Record)
    ensures { IsGood entry.now }
{
    entry.entry().version.counters();
}

// So is each of these.
pub(crate) fn all_are_good(records: &[Record])
    ensures { AllByRecursion IsGood records.now }
{
    for entry in records {
        record_is_good(entry);
    }
}

// So is this one, if it is there.
pub(crate) fn old_is_good(old: Option<&Record>)
    ensures { IsGoodIfThere (option_copied old.entry) }
{
    if let Some(entry) = old {
        record_is_good(entry);
    }
}
