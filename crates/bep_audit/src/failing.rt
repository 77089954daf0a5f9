//! The first place at which a reason fails.
ghost use Rattle.std.specs.Prelude.{◌≡◌, ◌≢◌, ◌∷◌, ◌<◌, ◌↔◌, [], Contains, IsTrue, Some, None, option_map, if◌then◌else◌};
ghost use Rattle.std.specs.Ordering.{nat_cmp};
ghost use Rattle.std.specs.List.Sorted.{IsStrictlyIncreasing};
ghost use Rattle.bep_model.specs.declared.reason.Reason.TheVariants.{CertificateOrder, NameMissing, NotWinner};
ghost use Rattle.bep_model.specs.Tables.{Tables};
ghost use Rattle.bep_model.specs.Settled.{Rise};
ghost use Rattle.bep_model.specs.Reasons.{AsksShare};
ghost use Rattle.bep_model.specs.Verdict.{number_of};
ghost use Rattle.bep_tables.specs.Cut.{tables_of, shares_of, devices_of};
ghost use Rattle.bep_audit.specs.inner.Held.{AsksOf, AsksAmong};
ghost use Rattle.bep_audit.specs.inner.Search.{FindsFirst, FindsFailing};
ghost use Rattle.bep_audit.specs.Shown.{place_shown, name_of};

use crate::foreign::meets_foreign;
use crate::known::is_known;
use crate::missing::first_missing;
use crate::spot::Spot;
use crate::{first_disordered, is_winner, meets_share, share_is_asked};
use bep_model::{Reason, Row};
use bep_record::DeviceId;
use bep_tables::{Cut, LinkState, Share, cut_says};

/// The first place at which the reason fails, by folder, name and device; `None` where it fails nowhere.
pub fn first_failing<'a>(cut: &'a Cut, rows: &'a [Row], reason: Reason) -> Option<Spot<'a>>
    requires { reason ≢ CertificateOrder → Rise rows.now }
    ensures { FindsFailing (tables_of cut.now) rows.now reason (option_map place_shown result) }
{
    match reason {
        Reason::CertificateOrder => first_out_of_order(rows),
        Reason::NameMissing => first_missing(cut, rows),
        _ => first_at_row(cut, rows, reason),
    }
}

// The name of the first row that isn't above the row before it, whatever the cut.
fn first_out_of_order(rows: &[Row]) -> Option<Spot<'_>>
    ensures { (t : Tables) → FindsFailing t rows.now CertificateOrder (option_map place_shown result) }
{
    match first_disordered(rows) {
        None => None,
        Some(row) => Some(Spot::of_row(row)),
    }
}

// Where a reason that asks something of each row first fails.
fn first_at_row<'a>(cut: &Cut, rows: &'a [Row], reason: Reason) -> Option<Spot<'a>>
    requires rise { Rise rows.now }
    requires of_rows { number_of NameMissing < number_of reason }
    ensures { FindsFailing (tables_of cut.now) rows.now reason (option_map place_shown result) }
{
    for row in rows {
        if let Some(spot) = failing_at(cut, row, reason) {
            return Some(spot);
        }
    }
    None
}

// Where the reason first fails at the row, as if there were no other row.
fn failing_at<'a>(cut: &Cut, row: &'a Row, reason: Reason) -> Option<Spot<'a>>
    requires { number_of NameMissing < number_of reason }
    ensures { FindsFailing (tables_of cut.now) (row.now ∷ []) reason (option_map place_shown result) }
{
    match reason {
        Reason::NameUnknown => unless(is_known(cut, &row.folder, &row.entry.entry().name), row),
        Reason::NotWinner => unless(is_winner(cut, row), row),
        _ => failing_device(cut, row, reason),
    }
}

/// The row's name as a whole, unless this holds of it.
pub(crate) fn unless<'a>(holds: bool, row: &'a Row) -> Option<Spot<'a>>
    ensures { option_map place_shown result ≡ (if holds then None else Some (name_of row.now)) }
{
    if holds { None } else { Some(Spot::of_row(row)) }
}

// The first device, if any, of which a reason that asks something of devices fails at the row.
fn failing_device<'a>(cut: &Cut, row: &'a Row, reason: Reason) -> Option<Spot<'a>>
    requires { number_of NotWinner < number_of reason }
    ensures { FindsFailing (tables_of cut.now) (row.now ∷ []) reason (option_map place_shown result) }
{
    cut_says();
    share_is_asked();
    match first_unmet(cut.shares(&row.folder), cut.links(), row, reason) {
        None => None,
        Some(device) => Some(Spot::of_device(row, device)),
    }
}

// The first of the devices, which rise, that doesn't meet what the reason asks of it beside the row.
fn first_unmet(shares: &[Share], links: &[LinkState], row: &Row, reason: Reason) -> Option<DeviceId>
    requires { IsStrictlyIncreasing (devices_of shares.now) }
    ensures { FindsFirst nat_cmp (AsksAmong reason row.now links.now shares.now) result }
{
    for share in shares {
        if !meets(reason, row, links, share) {
            return Some(share.device);
        }
    }
    None
}

/// Whether the device of this share meets what the reason asks of it beside the row. Reasons that ask nothing of devices
/// are met. Takes no memory.
pub fn meets_asked(cut: &Cut, row: &Row, share: &Share, reason: Reason) -> bool
    requires { Contains (shares_of row.now.folder cut.now.folders) share.now }
    ensures { IsTrue result ↔ AsksShare (tables_of cut.now) reason row.now share.now.device }
{
    cut_says();
    share_is_asked();
    meets(reason, row, cut.links(), share)
}

// Whether the device meets what the reason asks of it beside the row.
fn meets(reason: Reason, row: &Row, links: &[LinkState], share: &Share) -> bool
    ensures { IsTrue result ↔ AsksOf reason row.now links.now share.now }
{
    let winner = &row.entry;
    let name = &winner.entry().name;
    meets_share(reason, share.own.get(name), share.store.get(name), winner)
        && meets_foreign(reason, row, links, share)
}
