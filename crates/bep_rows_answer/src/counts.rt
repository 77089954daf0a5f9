//! How many names the rows have in each folder.
ghost use Rattle.std.specs.Prelude.{◌≡◌, IfOk, map, flat_map};
ghost use Rattle.bep_rows_answer.specs.Counts.{count_line, counted, is_held, no_count};
ghost use Rattle.bep_lines.specs.Text.{AppendsWhole};
ghost use Rattle.std.specs.List.{flat_map, list_any};

use bep_lines::{or_as_before, push_folder};
use bep_record::FolderName;
use bep_row::{DeviceCell, NameRow};
use bep_tables::SharedFolder;
use std::alloc::{AllocError, Global};

/// How many names the rows so far have in a folder, how many of these no store holds, and how many devices share it. A count
/// stops at the greatest number of 64 bits.
#[derive(Debug, Drop)]
pub struct FolderCount {
    /// The folder.
    pub folder: FolderName,
    /// The names.
    pub names: usize,
    /// Those that no store holds.
    pub deleted: usize,
    /// The devices.
    pub devices: usize,
}

// No names in each of these folders.
pub(crate) fn no_counts(
    alloc: Global,
    folders: &[SharedFolder],
) -> Result<Vec<FolderCount>, AllocError>
    ensures { IfOk result (λ made. made.items ≡ map no_count folders.now) }
{
    let mut made = Vec::with_capacity(alloc, folders.len())?;
    for shared in folders {
        made.push(no_count(alloc, shared)?)?;
    }
    Ok(made)
}

fn no_count(alloc: Global, shared: &SharedFolder) -> Result<FolderCount, AllocError>
    ensures { IfOk result (λ made. made ≡ no_count shared.now) }
{
    Ok(FolderCount {
        folder: shared.folder.copy(alloc)?,
        names: 0,
        deleted: 0,
        devices: shared.shares.as_slice().len(),
    })
}

// The counts with one more row.
pub(crate) fn counted(
    alloc: Global,
    counts: &[FolderCount],
    row: &NameRow,
) -> Result<Vec<FolderCount>, AllocError>
    ensures { IfOk result (λ made. made.items ≡ map (counted row.now) counts.now) }
{
    let mut made = Vec::with_capacity(alloc, counts.len())?;
    for one in counts {
        made.push(counted_one(alloc, one, row)?)?;
    }
    Ok(made)
}

// The count with one more row.
fn counted_one(alloc: Global, one: &FolderCount, row: &NameRow) -> Result<FolderCount, AllocError>
    ensures { IfOk result (λ made. made ≡ counted row.now one.now) }
{
    let (names, deleted) = added(one, row);
    Ok(FolderCount {
        folder: one.folder.copy(alloc)?,
        names,
        deleted,
        devices: one.devices,
    })
}

// How many names there are with one more row, and how many that no store holds.
fn added(one: &FolderCount, row: &NameRow) -> (usize, usize)
    ensures names { result.0 ≡ (counted row.now one.now).names }
    ensures deleted { result.1 ≡ (counted row.now one.now).deleted }
{
    if !one.folder.cmp(&row.folder).is_eq() {
        return (one.names, one.deleted);
    }
    let names = one.names.saturating_add(1);
    if is_held(row.devices.as_slice()) {
        (names, one.deleted)
    } else {
        (names, one.deleted.saturating_add(1))
    }
}

// Whether some device's store holds the name.
fn is_held(cells: &[DeviceCell]) -> bool
    ensures { result ≡ is_held cells.now }
{
    cells.iter().any(|cell| cell.node.is_some())
}

// Appends a line for each folder. Fails for memory alone, and then the text is as before.
pub(crate) fn push_counts(text: &mut Vec<u8>, counts: &[FolderCount]) -> Result<(), AllocError>
    ensures { AppendsWhole result text.old.items text.new.items (flat_map count_line counts.now) }
{
    let len = text.len();
    for one in counts {
        let pushed = push_folder(text, &one.folder, one.names, one.deleted, one.devices);
        or_as_before(text, len, pushed)?;
    }
    Ok(())
}
