//! The known names of a folder, by the cut's table.
ghost use Rattle.std.specs.Prelude.{◌≡◌, IfOk, map};
ghost use Rattle.std.specs.FinMap.{keys};
ghost use Rattle.bep_tables.specs.Listed.{IsGrouped, cut_listed, key_at, listed};
ghost use Rattle.bep_tables.specs.Names.{known_names};
ghost use Rattle.bep_report.specs.inner.Known.{adds_name, begins_with, names_lent};

use bep_audit::group_says;
use bep_record::{FolderName, Name};
use bep_tables::{Cut, TableEntry, names_are_known};
use std::alloc::{AllocError, Global};

// The names that are known in the folder, rising, lent from the cut.
pub(crate) fn known_in<'a>(
    alloc: Global,
    cut: &Cut,
    table: &[TableEntry<'a>],
    folder: &FolderName,
) -> Result<Vec<&'a Name>, AllocError>
    requires { IsGrouped (cut_listed cut.now) table.now }
    ensures { IfOk result (λ names. names_lent names.items ≡ keys (known_names cut.now folder.now)) }
{
    names_are_known();
    group_says();
    cut.is_a_cut();
    let mut names = Vec::new(alloc);
    for place in 0..table.len() {
        let entry = &table[place];
        let later = &table[place + 1..];
        if adds_name(folder, later, entry) {
            names.push(entry.name)?;
        }
    }
    Ok(names)
}

// Whether the entry is of the folder, and the last one of its name: the entries of a name stand together.
fn adds_name(folder: &FolderName, later: &[TableEntry<'_>], entry: &TableEntry<'_>) -> bool
    ensures { result ≡ adds_name folder.now (map listed later.now) (listed entry.now) }
{
    *entry.folder == *folder && !comes_again(later, entry)
}

// Whether the first of these entries is of this one's folder and name.
fn comes_again(later: &[TableEntry<'_>], entry: &TableEntry<'_>) -> bool
    ensures { result ≡ begins_with (key_at (listed entry.now)) (map listed later.now) }
{
    match later {
        [] => false,
        [next, ..] => next.compare(entry.folder, entry.name).is_eq(),
    }
}
