//! The rows of a certificate by their names, in whatever order they were given.
ghost use Rattle.std.specs.Prelude.{◌≡◌, ◌≢◌, ◌≤◌, ◌<◌, ◌↔◌, Some, Contains, IfOk, IfSome, IfNone, IsTrue, length, map, take};
ghost use Rattle.std.specs.Ordering.{eq_by_cmp, is_eq};
ghost use Rattle.std.specs.Cmp.{partial_equiv_from_equiv, eq_by_cmp_equiv, partial_order_from_total};
ghost use Rattle.std.specs.Cmp.Rules.{comparing};
ghost use Rattle.std.specs.List.Sorted.{IsSortedByKey};
ghost use Rattle.std.proofs.Common.{rules};
ghost use Rattle.bep_record.specs.Content.{content_of};
ghost use Rattle.bep_model.specs.declared.row.Row.{Row};
ghost use Rattle.bep_model.specs.Settled.{key_cmp, HasRow};
ghost use Rattle.bep_explain.specs.inner.Rows.{AreAlike, AreSorted, named_cmp, named_key, named_total, row_shown};

use crate::by_name::{OfName, about};
use bep_audit::{compare_row, compare_rows};
use bep_model::Row;
use bep_record::{FolderName, Name};
use std::alloc::{AllocError, Global};
use std::cmp::Ordering;

/// A row, lent. They are compared by the folder and the name that they are about.
#[derive(Clone, Copy)]
pub(crate) struct NamedRow<'a> {
    pub(crate) row: &'a Row,
}

impl<'a> PartialEq for NamedRow<'a> {
    ghost eq = { eq_by_cmp named_cmp };

    ghost laws = { partial_equiv_from_equiv (eq_by_cmp_equiv named_total) };

    fn eq(&self, other: &NamedRow<'a>) -> bool {
        compare_rows(self.row, other.row).is_eq()
    }
}

impl<'a> Eq for NamedRow<'a> {
    ghost laws = { eq_by_cmp_equiv named_total };
}

impl<'a> PartialOrd for NamedRow<'a> {
    ghost partial_cmp = { λ x y. Some (named_cmp x y) };

    ghost laws = { partial_order_from_total named_total };

    fn partial_cmp(&self, other: &NamedRow<'a>) -> Option<Ordering> {
        Some(compare_rows(self.row, other.row))
    }
}

impl<'a> Ord for NamedRow<'a> {
    ghost cmp = { named_cmp };

    ghost total = { named_total };

    ghost matches_partial_cmp = { Prim.search (comparing, rules) };

    ghost matches_eq = { Prim.search (comparing, rules) };

    fn cmp(&self, other: &NamedRow<'a>) -> Ordering {
        compare_rows(self.row, other.row)
    }
}

impl OfName for NamedRow<'_> {
    ghost key = { named_key };

    fn stands(&self, folder: &FolderName, name: &Name) -> Ordering {
        compare_row(self.row, folder, name)
    }
}

/// The rows by folder and name, those about one name in the order in which they were given; or want of memory.
pub(crate) fn sorted_by_name<'a>(
    alloc: Global,
    rows: &'a [Row],
) -> Result<Vec<NamedRow<'a>>, AllocError>
    ensures { IfOk result (λ sorted. AreSorted rows.now sorted.items) }
{
    let mut sorted = lent(alloc, rows)?;
    sorted.sort()?;
    Ok(sorted)
}

// The rows, lent.
fn lent<'a>(alloc: Global, rows: &'a [Row]) -> Result<Vec<NamedRow<'a>>, AllocError>
    ensures { IfOk result (λ all. map row_shown all.items ≡ rows.now) }
{
    let mut all = Vec::with_capacity(alloc, rows.len())?;
    for row in rows {
        all.reserve(1)?;
        all.push_reserved(NamedRow { row });
    }
    Ok(all)
}

/// Whether one of the rows is about the name.
pub(crate) fn has_row(rows: &[NamedRow<'_>], folder: &FolderName, name: &Name) -> bool
    requires { IsSortedByKey named_key key_cmp rows.now }
    ensures { IsTrue result ↔ HasRow (map row_shown rows.now) folder.now name.now }
{
    !about(rows, folder, name).is_empty()
}

/// The rows at the front that are about the first one's name.
pub(crate) fn alike_at<'s, 'a>(rows: &'s [NamedRow<'a>]) -> &'s [NamedRow<'a>]
    ensures front { result.now ≡ take (length result.now) rows.now }
    ensures some { 0 < length rows.now → 0 < length result.now }
    ensures within { length result.now ≤ length rows.now }
    ensures alike { AreAlike (map row_shown result.now) }
{
    match rows {
        [] => rows,
        [first, more @ ..] => &rows[..1 + count_alike(more, first)],
    }
}

// How many of these at the front are about the first one's name.
fn count_alike(rows: &[NamedRow<'_>], first: &NamedRow<'_>) -> usize
    ensures within { result ≤ length rows.now }
    ensures alike { (one : NamedRow) → Contains (take result rows.now) one → named_key one ≡ named_key first.now }
{
    let mut count = 0;
    for row in rows {
        if !compare_rows(row.row, first.row).is_eq() {
            return count;
        }
        count += 1;
    }
    count
}

/// The first of the rows that has another content than this one.
pub(crate) fn other_content<'a>(row: &Row, rows: &[NamedRow<'a>]) -> Option<&'a Row>
    ensures some { IfSome result (λ other. Contains (map row_shown rows.now) other.now × (content_of other.now.entry ≢ content_of row.now.entry)) }
    ensures none { IfNone result ((one : Row) → Contains (map row_shown rows.now) one → content_of one.entry ≡ content_of row.now.entry) }
{
    for one in rows {
        if !one.row.entry.same_content(&row.entry) {
            return Some(one.row);
        }
    }
    None
}
