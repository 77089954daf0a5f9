//! The known names that have no row.
ghost use Rattle.std.specs.Prelude.{◌≡◌, None, OnOk, map};
ghost use Rattle.std.specs.List.Sorted.{IsSortedByKey};
ghost use Rattle.bep_model.specs.Settled.{key_cmp};
ghost use Rattle.bep_model.specs.declared.reason.Reason.TheVariants.{NameMissing};
ghost use Rattle.bep_tables.specs.Listed.{key_at, listed};
ghost use Rattle.bep_audit.specs.Walk.{failure_shown};
ghost use Rattle.bep_gather.specs.Adding.{AddsFailing, Each};
ghost use Rattle.bep_explain.specs.inner.Rows.{named_key, row_shown};
ghost use Rattle.bep_explain.specs.inner.Says.{failure_at, SaysHasRow};

use crate::collect::add_unless;
use crate::rows::{NamedRow, has_row};
use bep_audit::{Failure, Spot};
use bep_model::{Reason, reasons_are_numbered};
use bep_tables::TableEntry;
use std::alloc::AllocError;

/// Adds the names of these entries that have no row among these, which are sorted by name.
pub(crate) fn add_missing<'a>(
    found: &mut Vec<Failure<'a>>,
    entries: &[TableEntry<'a>],
    rows: &[NamedRow<'_>],
) -> Result<(), AllocError>
    requires { IsSortedByKey named_key key_cmp rows.now }
    ensures { OnOk result (AddsFailing (Each (SaysHasRow (map row_shown rows.now)) entries.now) (map failure_shown found.old.items) (map failure_shown found.new.items)) }
{
    reasons_are_numbered();
    for entry in entries {
        let holds = has_row(rows, entry.folder, entry.name);
        add_unless(found, holds, &missing_at(entry))?;
    }
    Ok(())
}

// That the entry's name has no row.
fn missing_at<'a>(entry: &TableEntry<'a>) -> Failure<'a>
    ensures { failure_shown result ≡ failure_at NameMissing (key_at (listed entry.now)) None }
{
    Failure {
        reason: Reason::NameMissing,
        spot: Spot::of_name(entry.folder, entry.name),
    }
}
