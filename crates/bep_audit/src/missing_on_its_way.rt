//! The least name without a row, of those on their way.
ghost use Rattle.bep_audit.specs.inner.Known.{IsValidOf, Brings, IsOver};

use crate::least::{HasNames, has_row_if_valid, least_of, lesser};
use bep_model::Row;
use bep_record::{FolderName, Name, Record};
use bep_tables::{Flight, LinkState};

// The least name without a row, of those on their way over the link, one way or the other.
impl HasNames for LinkState {
    ghost names = { λ link folder name. IsOver folder name link };

    fn least_missing<'a>(&'a self, rows: &[Row], folder: &FolderName) -> Option<&'a Name> {
        let to_a = least_of(rows, folder, self.to_a.as_slice());
        let to_b = least_of(rows, folder, self.to_b.as_slice());
        lesser(to_a, to_b)
    }
}

// The least name without a row, of those that the message brings, if it is of the folder.
impl HasNames for Flight {
    ghost names = { λ flight folder name. Brings folder name flight };

    fn least_missing<'a>(&'a self, rows: &[Row], folder: &FolderName) -> Option<&'a Name> {
        if self.folder == *folder {
            least_of(rows, folder, self.records.as_slice())
        } else {
            None
        }
    }
}

// The record's name, if the record is valid.
impl HasNames for Record {
    ghost names = { λ entry folder name. IsValidOf name entry };

    fn least_missing<'a>(&'a self, rows: &[Row], folder: &FolderName) -> Option<&'a Name> {
        let name = &self.entry().name;
        if has_row_if_valid(rows, folder, name, self) {
            None
        } else {
            Some(name)
        }
    }
}
