//! The part of a table that is of one folder.
ghost use Rattle.std.specs.Prelude.{◌≡◌, ◌↔◌, Contains, map};
ghost use Rattle.bep_tables.specs.declared.table.entry.TableEntry.{TableEntry};
ghost use Rattle.bep_tables.specs.Listed.{AreInOrder, listed};

use bep_record::FolderName;
use bep_tables::TableEntry;

/// The entries of the folder, found by halving.
pub(crate) fn part_of<'s, 'a>(
    entries: &'s [TableEntry<'a>],
    folder: &FolderName,
) -> &'s [TableEntry<'a>]
    requires { AreInOrder (map listed entries.now) }
    ensures in_order { AreInOrder (map listed result.now) }
    ensures all { (one : TableEntry) → Contains result.now one ↔ (Contains entries.now one × (one.folder.now ≡ folder.now)) }
{
    let from = entries.partition_point(|one| one.folder.cmp(folder).is_lt());
    let rest = &entries[from..];
    let count = rest.partition_point(|one| one.folder.cmp(folder).is_le());
    &rest[..count]
}
