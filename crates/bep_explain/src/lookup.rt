//! What is looked up for the details of a name. No contract speaks of it.
use crate::by_name::about;
use crate::coming::{Coming, sorted_coming};
use crate::rows::{NamedRow, sorted_by_name};
use bep_audit::winner_of;
use bep_model::Row;
use bep_record::{DeviceId, FolderName, Name, Record};
use bep_tables::Cut;
use std::alloc::{AllocError, Global};

/// Where it is looked up: the rows, and what is on its way, each by folder and name.
#[derive(Drop)]
pub struct Lookup<'a> {
    cut: &'a Cut,
    rows: Vec<NamedRow<'a>>,
    coming: Vec<Coming<'a>>,
}

/// What is found of a name.
#[derive(Drop)]
pub struct OfOne<'s, 'a> {
    /// The device that wins the name, and its record.
    pub(crate) winner: Option<(DeviceId, &'a Record)>,
    /// The first row about it.
    pub(crate) row: Option<&'a Row>,
    /// What is on its way of it, to whichever device.
    pub(crate) coming: &'s [Coming<'a>],
}

impl<'a> Lookup<'a> {
    /// Of this cut and these rows; or want of memory.
    pub fn of(alloc: Global, cut: &'a Cut, rows: &'a [Row]) -> Result<Self, AllocError> {
        let rows = sorted_by_name(alloc, rows)?;
        let coming = sorted_coming(alloc, cut)?;
        Ok(Lookup { cut, rows, coming })
    }

    /// What is found of the name.
    pub fn find<'s>(&'s self, folder: &FolderName, name: &Name) -> OfOne<'s, 'a> {
        OfOne {
            winner: winner_of(self.cut, folder, name),
            row: first_of(about(self.rows.as_slice(), folder, name)),
            coming: about(self.coming.as_slice(), folder, name),
        }
    }
}

fn first_of<'a>(rows: &[NamedRow<'a>]) -> Option<&'a Row> {
    match rows {
        [] => None,
        [first, ..] => Some(first.row),
    }
}
