//! The walk over a cut's names beside a certificate's rows, with the least failure so far.
ghost use Rattle.std.specs.Prelude.{◌≡◌, ◌≤◌, ⊤, length, option_map, take};
ghost use Rattle.bep_model.specs.Settled.{Rise};
ghost use Rattle.bep_tables.specs.Cut.{tables_of};
ghost use Rattle.bep_tables.specs.Listed.{IsGrouped, cut_listed};
ghost use Rattle.bep_audit.specs.Walk.{failure_shown};
ghost use Rattle.bep_audit.specs.inner.Walk.{FindsLeast, key_shown, next_key, count_at, rows_about};

use crate::compare_row;
use crate::failure::{Failure, replaces};
use crate::group_row::failure_at;
use bep_model::{Row, rows_rise_in_order};
use bep_record::{FolderName, Name};
use bep_tables::{Cut, TableEntry, entries_are_held};

/// The least reason that fails, at its first place, for rows that rise; `None` where nothing fails.
///
/// Walks once over the names of the table and of the rows together, and keeps the least failure that it met.
pub(crate) fn least_failure<'a>(
    cut: &'a Cut,
    table: &[TableEntry<'a>],
    rows: &'a [Row],
) -> Option<Failure<'a>>
    requires table { IsGrouped (cut_listed cut.now) table.now }
    requires rise { Rise rows.now }
    ensures { FindsLeast (tables_of cut.now) rows.now (λ _. ⊤) (option_map failure_shown result) }
{
    rows_rise_in_order();
    entries_are_held();
    cut.is_a_cut();
    let mut least = None;
    let mut at = 0;
    let mut place = 0;
    while let Some((folder, name)) = next_key(&table[at..], &rows[place..]) {
        let group = entries_at(&table[at..], folder, name);
        let about = rows_at(&rows[place..], folder, name);
        let here = failure_at(cut, group, folder, name, about);
        if replaces(&here, &least) {
            least = here;
        }
        at += group.len();
        place += about.len();
    }
    least
}

// The folder and the name that come next: the lesser of those of the first entry and the first row.
pub(crate) fn next_key<'a>(
    entries: &[TableEntry<'a>],
    rows: &'a [Row],
) -> Option<(&'a FolderName, &'a Name)>
    ensures { option_map key_shown result ≡ next_key entries.now rows.now }
{
    match (entries, rows) {
        ([], []) => None,
        ([entry, ..], []) => Some((entry.folder, entry.name)),
        ([], [row, ..]) => Some((&row.folder, &row.entry.entry().name)),
        ([entry, ..], [row, ..]) => {
            if compare_row(row, entry.folder, entry.name).is_lt() {
                Some((&row.folder, &row.entry.entry().name))
            } else {
                Some((entry.folder, entry.name))
            }
        }
    }
}

// The entries of the folder and name at the front.
pub(crate) fn entries_at<'s, 'a>(
    entries: &'s [TableEntry<'a>],
    folder: &FolderName,
    name: &Name,
) -> &'s [TableEntry<'a>]
    ensures front { result.now ≡ take (count_at (folder.now, name.now) entries.now) entries.now }
    ensures count { length result.now ≡ count_at (folder.now, name.now) entries.now }
    ensures within { length result.now ≤ length entries.now }
{
    let count = count_of(entries, folder, name);
    &entries[..count]
}

// How many entries of the folder and name are at the front.
fn count_of(entries: &[TableEntry<'_>], folder: &FolderName, name: &Name) -> usize
    ensures { result ≡ count_at (folder.now, name.now) entries.now }
{
    let mut count = 0;
    for entry in entries {
        if entry.compare(folder, name).is_ne() {
            return count;
        }
        count += 1;
    }
    count
}

// The rows about the folder and name at the front: one or none, where rows rise.
fn rows_at<'a>(rows: &'a [Row], folder: &FolderName, name: &Name) -> &'a [Row]
    ensures front { result.now ≡ take (rows_about (folder.now, name.now) rows.now) rows.now }
    ensures count { length result.now ≡ rows_about (folder.now, name.now) rows.now }
    ensures within { length result.now ≤ length rows.now }
{
    let count = count_about(rows, folder, name);
    &rows[..count]
}

// How many rows about the folder and name are at the front, if rows rise: one or none.
fn count_about(rows: &[Row], folder: &FolderName, name: &Name) -> usize
    ensures { result ≡ rows_about (folder.now, name.now) rows.now }
{
    match rows {
        [] => 0,
        [row, ..] => if compare_row(row, folder, name).is_eq() {
            1
        } else {
            0
        },
    }
}
