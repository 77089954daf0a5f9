//! The walk over a cut's names, with the least reason so far.
ghost use Rattle.std.specs.Prelude.{◌≡◌, ◌≤◌, ⊤, [], IfOk, length, option_map, take};
ghost use Rattle.bep_tables.specs.Cut.{tables_of};
ghost use Rattle.bep_tables.specs.Listed.{IsGrouped, cut_listed};
ghost use Rattle.bep_audit.specs.inner.Walk.{count_at, key_shown, next_key};
ghost use Rattle.bep_converge_check.specs.Hindrance.{hinder_shown};
ghost use Rattle.bep_converge_check.specs.inner.Found.{FindsHinder};

use crate::at_name::hindrance_at;
use crate::hindrance::{Hindrance, precedes};
use bep_record::{FolderName, Name};
use bep_tables::{Cut, TableEntry, entries_are_held};
use std::alloc::{AllocError, Global};

/// The least reason that fails, at its first place; `None` where nothing fails. Or want of memory.
pub(crate) fn least_hindrance<'a>(
    alloc: Global,
    cut: &Cut,
    table: &[TableEntry<'a>],
) -> Result<Option<Hindrance<'a>>, AllocError>
    requires { IsGrouped (cut_listed cut.now) table.now }
    ensures { IfOk result (λ least. FindsHinder (tables_of cut.now) (λ _. ⊤) (option_map hinder_shown least)) }
{
    entries_are_held();
    cut.is_a_cut();
    let mut least = None;
    let mut at = 0;
    while let Some((folder, name)) = next_key(&table[at..]) {
        let group = entries_at(&table[at..], folder, name);
        let here = match hindrance_at(alloc, cut, group, folder, name) {
            Ok(here) => here,
            Err(error) => return Err(error),
        };
        if precedes(&here, &least) {
            least = here;
        }
        at += group.len();
    }
    Ok(least)
}

/// The folder and the name of the first entry.
pub(crate) fn next_key<'a>(entries: &[TableEntry<'a>]) -> Option<(&'a FolderName, &'a Name)>
    ensures { option_map key_shown result ≡ next_key entries.now [] }
{
    match entries {
        [] => None,
        [entry, ..] => Some((entry.folder, entry.name)),
    }
}

/// The entries of the folder and name at the front.
pub(crate) fn entries_at<'s, 'a>(
    entries: &'s [TableEntry<'a>],
    folder: &FolderName,
    name: &Name,
) -> &'s [TableEntry<'a>]
    ensures front { result.now ≡ take (count_at (folder.now, name.now) entries.now) entries.now }
    ensures count { length result.now ≡ count_at (folder.now, name.now) entries.now }
    ensures within { length result.now ≤ length entries.now }
{
    let count = count_of(entries, folder, name);
    &entries[..count]
}

// How many entries of the folder and name are at the front.
fn count_of(entries: &[TableEntry<'_>], folder: &FolderName, name: &Name) -> usize
    ensures { result ≡ count_at (folder.now, name.now) entries.now }
{
    let mut count = 0;
    for entry in entries {
        if entry.compare(folder, name).is_ne() {
            return count;
        }
        count += 1;
    }
    count
}
