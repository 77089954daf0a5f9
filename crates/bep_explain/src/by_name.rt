//! Lists in the order of folders and names, and what in them is about one name.
ghost use Rattle.std.specs.Prelude.{◌≡◌, ◌↔◌, Contains};
ghost use Rattle.std.specs.List.Sorted.{IsSortedByKey};
ghost use Rattle.bep_model.specs.Settled.{key_cmp};
ghost use Rattle.bep_model.specs.Tables.{Folder, FileName};
ghost use Rattle.bep_tables.specs.Listed.{key_at, listed};

use bep_record::{FolderName, Name};
use bep_tables::TableEntry;
use std::cmp::Ordering;

/// What is about a name in a folder.
pub(crate) trait OfName {
    /// The folder and the name.
    ghost key: { Self → Folder × FileName };

    /// How they stand to these.
    fn stands(&self, folder: &FolderName, name: &Name) -> Ordering
        ensures { result ≡ key_cmp (key self.now) (folder.now, name.now) };
}

impl OfName for TableEntry<'_> {
    ghost key = { λ entry. key_at (listed entry) };

    fn stands(&self, folder: &FolderName, name: &Name) -> Ordering {
        self.compare(folder, name)
    }
}

/// The items about this name, found by halving, if the items are sorted by folder and name.
pub(crate) fn about<'s, T: OfName>(items: &'s [T], folder: &FolderName, name: &Name) -> &'s [T]
    ensures { IsSortedByKey T.key key_cmp items.now → (one : T) →
        Contains result.now one ↔ (Contains items.now one × (T.key one ≡ (folder.now, name.now))) }
{
    let from = items.partition_point(|one| one.stands(folder, name).is_lt());
    let rest = &items[from..];
    let count = rest.partition_point(|one| one.stands(folder, name).is_le());
    &rest[..count]
}
