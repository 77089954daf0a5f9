//! The least known name that has no row.
ghost use Rattle.std.specs.Prelude.{option_map};
ghost use Rattle.std.specs.Option.{option_copied};
ghost use Rattle.bep_model.specs.declared.reason.Reason.TheVariants.{NameMissing};
ghost use Rattle.bep_model.specs.Settled.{Rise};
ghost use Rattle.bep_tables.specs.Cut.{tables_of};
ghost use Rattle.bep_audit.specs.inner.Known.{IsKnownFrom};
ghost use Rattle.bep_audit.specs.inner.Missing.{FindsMissing};
ghost use Rattle.bep_audit.specs.inner.Search.{FindsFailing};
ghost use Rattle.bep_audit.specs.Shown.{place_shown};

use crate::least::{least_of, lesser};
use crate::spot::Spot;
use bep_model::Row;
use bep_record::Name;
use bep_tables::{Cut, LinkState, SharedFolder, cut_says};

/// The first place of a known name that has no row.
pub fn first_missing<'a>(cut: &'a Cut, rows: &[Row]) -> Option<Spot<'a>>
    requires { Rise rows.now }
    ensures { FindsFailing (tables_of cut.now) rows.now NameMissing (option_map place_shown result) }
{
    cut_says();
    for held in cut.folders() {
        if let Some(name) = least_of_folder(rows, held, cut.links()) {
            return Some(Spot::of_name(&held.folder, name));
        }
    }
    None
}

// The least name without a row, of those that are known in the folder.
fn least_of_folder<'a>(
    rows: &[Row],
    held: &'a SharedFolder,
    links: &'a [LinkState],
) -> Option<&'a Name>
    requires { Rise rows.now }
    ensures { FindsMissing rows.now held.now.folder (IsKnownFrom held.now.folder held.now.shares links.now) (option_copied result) }
{
    let there = least_of(rows, &held.folder, held.shares.as_slice());
    let coming = least_of(rows, &held.folder, links);
    lesser(there, coming)
}
