//! The least failure at one name, by its entries and its row.
ghost use Rattle.std.specs.Prelude.{◌≡◌, ◌≤◌, ◌<◌, ◌∷◌, [], Contains, length, map, option_map};
ghost use Rattle.std.specs.Ordering.{nat_cmp};
ghost use Rattle.std.specs.List.Sorted.{IsStrictlyIncreasing};
ghost use Rattle.bep_model.specs.declared.row.Row.{Row};
ghost use Rattle.bep_model.specs.declared.reason.Reason.TheVariants.{NotWinner};
ghost use Rattle.bep_model.specs.Settled.{key_of};
ghost use Rattle.bep_model.specs.Verdict.{number_of};
ghost use Rattle.bep_tables.specs.Cut.{tables_of, devices_of};
ghost use Rattle.bep_tables.specs.Listed.{listed};
ghost use Rattle.bep_audit.specs.Group.{IsGroupOf, AsksAmongGroup};
ghost use Rattle.bep_audit.specs.inner.Search.{FindsFirst, FindsFailing};
ghost use Rattle.bep_audit.specs.Shown.{place_shown};
ghost use Rattle.bep_audit.specs.Walk.{failure_shown};
ghost use Rattle.bep_audit.specs.inner.Walk.{FindsLeast, FindsHere};

use crate::checkers::REASONS;
use crate::failing::unless;
use crate::failure::Failure;
use crate::faultless::is_faultless;
use crate::group::{has_known, meets_group};
use crate::share_is_asked;
use crate::spot::Spot;
use crate::winner::is_winner_in;
use bep_model::{Reason, Row, reasons_are_numbered};
use bep_record::{DeviceId, FolderName, Name};
use bep_tables::{Cut, Share, TableEntry, cut_says, entries_are_held};

/// The least failure at a name. These are its entries and its rows, one or none.
pub(crate) fn failure_at<'a>(
    cut: &'a Cut,
    group: &[TableEntry<'a>],
    folder: &'a FolderName,
    name: &'a Name,
    rows: &'a [Row],
) -> Option<Failure<'a>>
    requires group { IsGroupOf cut.now (folder.now, name.now) (map listed group.now) }
    requires few { length rows.now ≤ 1 }
    requires about { (row : Row) → Contains rows.now row → key_of row ≡ (folder.now, name.now) }
    ensures { FindsLeast (tables_of cut.now) rows.now (λ key. key ≡ (folder.now, name.now)) (option_map failure_shown result) }
{
    match rows {
        [] => failure_without_row(cut, group, folder, name),
        [row, ..] => failure_at_row(cut, group, row),
    }
}

// That a known name has no row.
fn failure_without_row<'a>(
    cut: &'a Cut,
    group: &[TableEntry<'a>],
    folder: &'a FolderName,
    name: &'a Name,
) -> Option<Failure<'a>>
    requires { IsGroupOf cut.now (folder.now, name.now) (map listed group.now) }
    ensures { FindsLeast (tables_of cut.now) [] (λ key. key ≡ (folder.now, name.now)) (option_map failure_shown result) }
{
    entries_are_held();
    cut.is_a_cut();
    if has_known(group) {
        return Some(Failure {
            reason: Reason::NameMissing,
            spot: Spot::of_name(folder, name),
        });
    }
    None
}

// The least failure at the row's name, as if there were no other row.
fn failure_at_row<'a>(cut: &'a Cut, group: &[TableEntry<'a>], row: &'a Row) -> Option<Failure<'a>>
    requires { IsGroupOf cut.now (key_of row.now) (map listed group.now) }
    ensures { FindsLeast (tables_of cut.now) (row.now ∷ []) (λ key. key ≡ key_of row.now) (option_map failure_shown result) }
{
    reasons_are_numbered();
    if is_faultless(cut, group, row) {
        return None;
    }
    for reason in REASONS {
        if let Some(spot) = failing_in(cut, group, row, reason) {
            return Some(Failure { reason, spot });
        }
    }
    None
}

// Where the reason first fails at the row's name, as if there were no other row.
fn failing_in<'a>(
    cut: &'a Cut,
    group: &[TableEntry<'a>],
    row: &'a Row,
    reason: Reason,
) -> Option<Spot<'a>>
    requires { IsGroupOf cut.now (key_of row.now) (map listed group.now) }
    ensures { FindsHere (tables_of cut.now) row.now reason (option_map place_shown result) }
{
    entries_are_held();
    cut.is_a_cut();
    match reason {
        Reason::CertificateOrder | Reason::NameMissing => None,
        Reason::NameUnknown => unless(has_known(group), row),
        Reason::NotWinner => unless(is_winner_in(cut, group, row), row),
        _ => failing_device_in(cut, group, row, reason),
    }
}

// The first device, if any, of which a reason that asks something of devices fails at the row.
fn failing_device_in<'a>(
    cut: &'a Cut,
    group: &[TableEntry<'a>],
    row: &'a Row,
    reason: Reason,
) -> Option<Spot<'a>>
    requires of_devices { number_of NotWinner < number_of reason }
    requires group { IsGroupOf cut.now (key_of row.now) (map listed group.now) }
    ensures { FindsFailing (tables_of cut.now) (row.now ∷ []) reason (option_map place_shown result) }
{
    cut_says();
    entries_are_held();
    share_is_asked();
    match first_unmet_in(cut.shares(&row.folder), group, row, reason) {
        None => None,
        Some(device) => Some(Spot::of_device(row, device)),
    }
}

// The first of the devices, which rise, that doesn't meet what the reason asks of it beside the row.
fn first_unmet_in(
    shares: &[Share],
    group: &[TableEntry<'_>],
    row: &Row,
    reason: Reason,
) -> Option<DeviceId>
    requires { IsStrictlyIncreasing (devices_of shares.now) }
    ensures { FindsFirst nat_cmp (AsksAmongGroup reason row.now (map listed group.now) shares.now) result }
{
    for share in shares {
        if !meets_group(reason, row, group, share) {
            return Some(share.device);
        }
    }
    None
}
