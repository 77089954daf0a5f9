//! The least name without a row, of those that devices have.
ghost use Rattle.std.specs.Prelude.{IsTrue};
ghost use Rattle.std.specs.Option.{option_copied};
ghost use Rattle.std.specs.FinMap.{contains_key};
ghost use Rattle.bep_model.specs.Settled.{Rise};
ghost use Rattle.bep_audit.specs.inner.Known.{HasValid, HasForeign, HasName};
ghost use Rattle.bep_audit.specs.inner.Missing.{FindsMissing};

use crate::find_row;
use crate::least::{HasNames, has_row_if_valid, least_of, lesser};
use bep_map::NameMap;
use bep_model::Row;
use bep_record::{FolderName, Name, Record};
use bep_tables::{PeerView, Share};

// Those that the device has.
impl HasNames for Share {
    ghost names = { λ share folder. HasName share };

    fn least_missing<'a>(&'a self, rows: &[Row], folder: &FolderName) -> Option<&'a Name> {
        let recorded = first_without_row(rows, folder, &self.own);
        let stored = first_without_row(rows, folder, &self.store);
        let elsewhere = least_of_foreign(rows, folder, self);
        lesser(recorded, lesser(stored, elsewhere))
    }
}

// The least name without a row, of those that the device pulls or has in a view.
fn least_of_foreign<'a>(rows: &[Row], folder: &FolderName, share: &'a Share) -> Option<&'a Name>
    requires { Rise rows.now }
    ensures { FindsMissing rows.now folder.now (HasForeign share.now) (option_copied result) }
{
    let pulled = first_without_row(rows, folder, &share.pulls);
    let viewed = least_of(rows, folder, share.views.as_slice());
    lesser(pulled, viewed)
}

// The first name of the map that has no row.
fn first_without_row<'a, V>(
    rows: &[Row],
    folder: &FolderName,
    held: &'a NameMap<V>,
) -> Option<&'a Name>
    requires { Rise rows.now }
    ensures { FindsMissing rows.now folder.now (λ name. IsTrue (contains_key held.now name)) (option_copied result) }
{
    for (name, _value) in held.iter() {
        if find_row(rows, folder, name).is_none() {
            return Some(name);
        }
    }
    None
}

// Those of which the view has a valid record.
impl HasNames for PeerView {
    ghost names = { λ view folder. HasValid view.records };

    fn least_missing<'a>(&'a self, rows: &[Row], folder: &FolderName) -> Option<&'a Name> {
        first_valid_without_row(rows, folder, &self.records)
    }
}

// The first name of the map whose record is valid and that has no row.
fn first_valid_without_row<'a>(
    rows: &[Row],
    folder: &FolderName,
    records: &'a NameMap<Record>,
) -> Option<&'a Name>
    requires { Rise rows.now }
    ensures { FindsMissing rows.now folder.now (HasValid records.now) (option_copied result) }
{
    for (name, found) in records.iter() {
        if !has_row_if_valid(rows, folder, name, found) {
            return Some(name);
        }
    }
    None
}
