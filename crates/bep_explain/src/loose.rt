//! All that keeps a cut from being firm beside what keeps it from being settled, each once, in their order.
ghost use Rattle.std.specs.Prelude.{◌≡◌, ◌++◌, ◌∷◌, ◌↔◌, [], map, Contains, IfOk, IsTrue, OnOk, if◌then◌else◌};
ghost use Rattle.std.specs.List.Sorted.{IsSortedByKey};
ghost use Rattle.bep_model.specs.Settled.{key_cmp};
ghost use Rattle.bep_tables.specs.Cut.{tables_of};
ghost use Rattle.bep_tables.specs.Listed.{listed};
ghost use Rattle.bep_audit.specs.Loose.{loose_shown, AsksEntry, MeetsFirm};
ghost use Rattle.bep_audit.specs.LooseOrder.{loose_lent_cmp};
ghost use Rattle.bep_gather.specs.Adding.{AddsFailing, Each};
ghost use Rattle.bep_gather.specs.Distinct.{is_below_next, distinct};
ghost use Rattle.bep_explain.specs.Loose.{AreLoosenings, IsFirmlyMet, IsTight};
ghost use Rattle.bep_explain.specs.inner.Rows.{named_key, row_shown};
ghost use Rattle.bep_explain.specs.declared.rows.NamedRow.{NamedRow};

use crate::by_name::about;
use crate::rows::{NamedRow, sorted_by_name};
use bep_audit::{Certificate, Looseness, entries_are_asked, loosening_of, meets_row};
use bep_model::Row;
use bep_tables::{Cut, Table, TableEntry};
use std::alloc::{AllocError, Global};

/// All of the four further reasons that fail, each at every place at which it fails, or want of memory: by reason, then
/// folder, name and device, each once. Each row is judged, also where they don't rise or the cut isn't settled.
///
/// Groups the cut by folder and name, sorts the rows so, and looks at each entry beside the rows about its name.
pub fn loosenings<'a>(
    alloc: Global,
    cut: &'a Cut,
    certificate: &'a Certificate,
) -> Result<Vec<Looseness<'a>>, AllocError>
    ensures all { IfOk result (λ found. AreLoosenings (tables_of cut.now) certificate.now (map loose_shown found.items)) }
    ensures tight { IfOk result (λ found. (found.items ≡ []) ↔ IsTight (tables_of cut.now) certificate.now) }
{
    let mut found = gathered(alloc, cut, certificate.rows())?;
    found.sort()?;
    let kept = distinct(alloc, found.as_slice())?;
    Ok(kept)
}

// All of them, as they are met.
fn gathered<'a>(alloc: Global, cut: &'a Cut, rows: &[Row]) -> Result<Vec<Looseness<'a>>, AllocError>
    ensures { IfOk result (λ found. AddsFailing (IsFirmlyMet (tables_of cut.now) rows.now) [] (map loose_shown found.items)) }
{
    entries_are_asked();
    cut.is_a_cut();
    let mut found = Vec::new(alloc);
    let table = Table::of(alloc, cut)?;
    let sorted = sorted_by_name(alloc, rows)?;
    add_entries(&mut found, sorted.as_slice(), table.entries())?;
    Ok(found)
}

// Adds what these entries are asked in vain beside the rows, which are sorted by name.
fn add_entries<'a>(
    found: &mut Vec<Looseness<'a>>,
    rows: &[NamedRow<'_>],
    entries: &[TableEntry<'a>],
) -> Result<(), AllocError>
    requires { IsSortedByKey named_key key_cmp rows.now }
    ensures { OnOk result (AddsFailing (Each (λ entry. AsksEntry (map row_shown rows.now) (listed entry)) entries.now) (map loose_shown found.old.items) (map loose_shown found.new.items)) }
{
    for entry in entries {
        add_entry(found, rows, entry)?;
    }
    Ok(())
}

// Adds what this entry is asked in vain.
fn add_entry<'a>(
    found: &mut Vec<Looseness<'a>>,
    rows: &[NamedRow<'_>],
    entry: &TableEntry<'a>,
) -> Result<(), AllocError>
    requires { IsSortedByKey named_key key_cmp rows.now }
    ensures { OnOk result (AddsFailing (AsksEntry (map row_shown rows.now) (listed entry.now)) (map loose_shown found.old.items) (map loose_shown found.new.items)) }
{
    match loosening_of(entry) {
        None => Ok(()),
        Some(one) => {
            add_unless(found, meets(rows, entry), &one)?;
            Ok(())
        }
    }
}

// Whether the entry meets what it is asked beside these rows, which are sorted by name.
fn meets(rows: &[NamedRow<'_>], entry: &TableEntry<'_>) -> bool
    requires { IsSortedByKey named_key key_cmp rows.now }
    ensures { IsTrue result ↔ MeetsFirm (map row_shown rows.now) (listed entry.now) }
{
    meets_each(about(rows, entry.folder, entry.name), entry)
}

// Whether it meets that beside each of these, as if there were no other.
fn meets_each(rows: &[NamedRow<'_>], entry: &TableEntry<'_>) -> bool
    ensures { IsTrue result ↔ ((one : NamedRow) → Contains rows.now one → MeetsFirm (row_shown one ∷ []) (listed entry.now)) }
{
    for one in rows {
        if !meets_row(one.row, entry) {
            return false;
        }
    }
    true
}

// Adds this one, unless what it tells of holds.
fn add_unless<'a>(
    found: &mut Vec<Looseness<'a>>,
    holds: bool,
    one: &Looseness<'a>,
) -> Result<(), AllocError>
    ensures { OnOk result (map loose_shown found.new.items ≡ (if holds then map loose_shown found.old.items else map loose_shown found.old.items ++ loose_shown one.now ∷ [])) }
{
    if !holds {
        found.reserve(1)?;
        found.push_reserved(copy_of_loose(one));
    }
    Ok(())
}

/// The same, lent from where it is lent.
pub(crate) fn copy_of_loose<'a>(one: &Looseness<'a>) -> Looseness<'a>
    ensures { result ≡ one.now }
{
    Looseness {
        reason: one.reason,
        folder: one.folder,
        name: one.name,
        device: one.device,
    }
}

// Those of them, in order, that are below the next.
fn distinct<'a>(alloc: Global, sorted: &[Looseness<'a>]) -> Result<Vec<Looseness<'a>>, AllocError>
    ensures { IfOk result (λ kept. kept.items ≡ distinct loose_lent_cmp sorted.now) }
{
    let mut kept = Vec::new(alloc);
    for place in 0..sorted.len() {
        let one = &sorted[place];
        if is_below_next(one, &sorted[place + 1..]) {
            kept.reserve(1)?;
            kept.push_reserved(copy_of_loose(one));
        }
    }
    Ok(kept)
}

// Whether this one is below the first of those, if there is one.
fn is_below_next(one: &Looseness<'_>, more: &[Looseness<'_>]) -> bool
    ensures { result ≡ is_below_next loose_lent_cmp one.now more.now }
{
    match more {
        [] => true,
        [next, ..] => one.compare(next).is_lt(),
    }
}
