//! How far the names of the rows have come in each folder.
ghost use Rattle.std.specs.Prelude.{◌≡◌, IfOk, map};
ghost use Rattle.bep_converge_check.specs.Progress.{progress_shown};
ghost use Rattle.bep_rows_converge.specs.Pairs.{no_pairs, pairs_shown, with_more};

use bep_converge_check::FolderProgress;
use bep_record::FolderName;
use bep_tables::SharedFolder;
use std::alloc::{AllocError, Global};

/// What the rows so far have of a folder. A count stops at the greatest number of 64 bits.
#[derive(Debug, Drop)]
pub struct FolderPairs {
    /// The folder.
    pub folder: FolderName,
    /// The names that are known there.
    pub names: u64,
    /// Those of these names of which no store holds a file.
    pub deleted: u64,
    /// The devices that share the folder.
    pub devices: u64,
    /// The pairs of a name and a device that are still to come.
    pub to_come: u64,
}

// No names in each of these folders.
pub(crate) fn no_pairs(
    alloc: Global,
    folders: &[SharedFolder],
) -> Result<Vec<FolderPairs>, AllocError>
    ensures { IfOk result (λ made. made.items ≡ map no_pairs folders.now) }
{
    let mut made = Vec::with_capacity(alloc, folders.len())?;
    for shared in folders {
        made.push(no_pairs_in(alloc, shared)?)?;
    }
    Ok(made)
}

fn no_pairs_in(alloc: Global, shared: &SharedFolder) -> Result<FolderPairs, AllocError>
    ensures { IfOk result (λ made. made ≡ no_pairs shared.now) }
{
    Ok(FolderPairs {
        folder: shared.folder.copy(alloc)?,
        names: 0,
        deleted: 0,
        devices: shared.shares.as_slice().len() as u64,
        to_come: 0,
    })
}

// These and one more name of a folder, which has come so far.
pub(crate) fn with_more(
    alloc: Global,
    all: &[FolderPairs],
    here: &FolderProgress<'_>,
) -> Result<Vec<FolderPairs>, AllocError>
    ensures { IfOk result (λ made. made.items ≡ map (with_more (progress_shown here.now)) all.now) }
{
    let mut made = Vec::with_capacity(alloc, all.len())?;
    for one in all {
        made.push(one_with_more(alloc, one, here)?)?;
    }
    Ok(made)
}

fn one_with_more(
    alloc: Global,
    one: &FolderPairs,
    here: &FolderProgress<'_>,
) -> Result<FolderPairs, AllocError>
    ensures { IfOk result (λ made. made ≡ with_more (progress_shown here.now) one.now) }
{
    let (names, deleted, to_come) = if one.folder.cmp(here.folder).is_eq() {
        (here.names, here.deleted, here.to_come)
    } else {
        (0, 0, 0)
    };
    Ok(FolderPairs {
        folder: one.folder.copy(alloc)?,
        names: one.names.saturating_add(names),
        deleted: one.deleted.saturating_add(deleted),
        devices: one.devices,
        to_come: one.to_come.saturating_add(to_come),
    })
}

// The same, with lent folders.
pub(crate) fn lent<'a>(
    alloc: Global,
    all: &'a [FolderPairs],
) -> Result<Vec<FolderProgress<'a>>, AllocError>
    ensures { IfOk result (λ made. map progress_shown made.items ≡ map pairs_shown all.now) }
{
    let mut made = Vec::with_capacity(alloc, all.len())?;
    for one in all {
        made.push(lent_one(one))?;
    }
    Ok(made)
}

fn lent_one(one: &FolderPairs) -> FolderProgress<'_>
    ensures { progress_shown result ≡ pairs_shown one.now }
{
    FolderProgress {
        folder: &one.folder,
        names: one.names,
        deleted: one.deleted,
        devices: one.devices,
        to_come: one.to_come,
    }
}
