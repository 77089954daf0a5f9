//! The least name without a row, of those that something has.
ghost use Rattle.std.specs.Prelude.{◌≡◌, ◌↔◌, IsTrue, false};
ghost use Rattle.std.specs.Option.{option_copied};
ghost use Rattle.std.specs.Ordering.{nat_cmp};
ghost use Rattle.std.specs.Cmp.Lexicographic.{slice_cmp};
ghost use Rattle.bep_model.specs.Settled.{Rise, HasRow};
ghost use Rattle.bep_model.specs.Tables.{Folder, FileName};
ghost use Rattle.bep_audit.specs.inner.Missing.{FindsMissing, OneHas};
ghost use Rattle.bep_audit.specs.inner.Search.{lesser};

use crate::find_row;
use bep_model::Row;
use bep_record::{FolderName, Name, Record};

/// What has names in folders.
pub(crate) trait HasNames {
    /// The names that it has in a folder.
    ghost names: { Self → Folder → FileName → Type 0 };

    /// The least of these without a row.
    fn least_missing<'a>(&'a self, rows: &[Row], folder: &FolderName) -> Option<&'a Name>
        requires { Rise rows.now }
        ensures { FindsMissing rows.now folder.now (names self.now folder.now) (option_copied result) };
}

/// The least name without a row, of those that one of these has.
pub(crate) fn least_of<'a, T: HasNames>(
    rows: &[Row],
    folder: &FolderName,
    items: &'a [T],
) -> Option<&'a Name>
    requires { Rise rows.now }
    ensures { FindsMissing rows.now folder.now (OneHas (λ one. T.names one folder.now) items.now) (option_copied result) }
{
    let mut least = None;
    for one in items {
        least = lesser(least, one.least_missing(rows, folder));
    }
    least
}

/// Whether the name has a row, or the record is invalid.
pub(crate) fn has_row_if_valid(
    rows: &[Row],
    folder: &FolderName,
    name: &Name,
    found: &Record,
) -> bool
    requires { Rise rows.now }
    ensures { IsTrue result ↔ (found.now.invalid ≡ false → HasRow rows.now folder.now name.now) }
{
    found.entry().invalid || find_row(rows, folder, name).is_some()
}

/// The lesser of two names, of which each may be missing.
pub(crate) fn lesser<'a>(one: Option<&'a Name>, other: Option<&'a Name>) -> Option<&'a Name>
    ensures { option_copied result ≡ lesser (slice_cmp nat_cmp) (option_copied one.entry) (option_copied other.entry) }
{
    match (one, other) {
        (Some(one), Some(other)) => if other < one { Some(other) } else { Some(one) },
        (Some(one), None) => Some(one),
        (None, other) => other,
    }
}
