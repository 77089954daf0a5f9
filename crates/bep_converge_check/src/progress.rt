//! How far the names of a folder have come.
ghost use Rattle.std.specs.Prelude.{◌≡◌, ◌≤◌, ◌↔◌, IsTrue, None, Contains, map};
ghost use Rattle.std.specs.FinMap.{get};
ghost use Rattle.bep_record.specs.declared.limits.TheConstants.{MAX_DEVICES};
ghost use Rattle.bep_model.specs.Foreign.{IsKnown};
ghost use Rattle.bep_model.specs.Tables.{FileName, Device};
ghost use Rattle.bep_tables.specs.declared.share.Share.{Share};
ghost use Rattle.bep_tables.specs.Cut.{tables_of};
ghost use Rattle.bep_tables.specs.Listed.{IsGrouped, cut_listed, listed};
ghost use Rattle.bep_audit.specs.Group.{IsGroupOf};
ghost use Rattle.bep_converge_check.specs.SoMany.{AreSoMany};
ghost use Rattle.bep_converge_check.specs.Progress.{IsAtWinners, IsDeleted, IsProgress, IsThere, IsToCome, IsUndeleted, progress_shown};
ghost use Rattle.bep_converge_check.specs.inner.Behind.{AreSoManyOf, IsOfKey};

use crate::behind::{count_behind, winner_of};
use crate::part::part_of;
use crate::walk::{entries_at, next_key};
use bep_record::{FolderName, Name};
use bep_tables::{Cut, Share, Table, TableEntry, cut_says, entries_are_held};

/// How far the names of a folder have come.
#[derive(Clone, Copy, Debug)]
pub struct FolderProgress<'a> {
    /// The folder.
    pub folder: &'a FolderName,
    /// How many names are known in it.
    pub names: u64,
    /// Of how many of these no store holds a file.
    pub deleted: u64,
    /// How many devices share it.
    pub devices: u64,
    /// How many pairs of such a name and such a device are still to come: the device's record isn't at the name's winner, or is a
    /// local change, or the name has no winner.
    pub to_come: u64,
}

/// How far the names of the folder have come, by the cut's table. Where nothing is to come, each device is at the winner of each
/// name.
pub fn progress_of<'a>(cut: &Cut, table: &Table<'_>, folder: &'a FolderName) -> FolderProgress<'a>
    requires { IsGrouped (cut_listed cut.now) table.now }
    ensures folder { result.folder.now ≡ folder.now }
    ensures progress { IsProgress (tables_of cut.now) (progress_shown result) }
    ensures at_winners { result.to_come ≡ 0 → IsAtWinners (tables_of cut.now) folder.now }
{
    entries_are_held();
    cut_says();
    let entries = part_of(table.entries(), folder);
    let devices = cut.shares(folder).len();
    let (mut names, mut deleted, mut to_come) = (0, 0, 0);
    let mut at = 0;
    while let Some((other, name)) = next_key(&entries[at..]) {
        let group = entries_at(&entries[at..], other, name);
        names += names_at(folder, other, name);
        deleted += deleted_at(cut, folder, other, name);
        to_come += to_come_at(cut, folder, other, name, group);
        at += group.len();
    }
    FolderProgress {
        folder,
        names: names as u64,
        deleted: deleted as u64,
        devices: devices as u64,
        to_come: to_come as u64,
    }
}

// One, if the name is of the folder; none, if it is of another.
fn names_at(folder: &FolderName, other: &FolderName, name: &Name) -> usize
    ensures few { result ≤ 1 }
    ensures count { AreSoMany (IsOfKey folder.now other.now name.now) (λ one. ¬ IsOfKey folder.now other.now name.now one) result }
{
    if is_same(folder, other) { 1 } else { 0 }
}

// One, if the name is of the folder, and no store holds a file of it; none otherwise.
fn deleted_at(cut: &Cut, folder: &FolderName, other: &FolderName, name: &Name) -> usize
    requires { IsKnown (tables_of cut.now) other.now name.now }
    ensures few { result ≤ 1 }
    ensures count { AreSoManyOf (λ (one : FileName). one) (IsDeleted (tables_of cut.now) folder.now) (IsUndeleted (tables_of cut.now) folder.now) folder.now other.now name.now result }
{
    cut_says();
    if !is_same(folder, other) {
        0
    } else if all_lack(cut.shares(folder), name) {
        1
    } else {
        0
    }
}

// Whether none of the devices' stores holds a file of the name.
fn all_lack(shares: &[Share], name: &Name) -> bool
    ensures { IsTrue result ↔ ((share : Share) → Contains shares.now share → get share.store name.now ≡ None) }
{
    shares.iter().all(|share| lacks(share, name))
}

// Whether the device's store holds no file of the name.
fn lacks(share: &Share, name: &Name) -> bool
    ensures { IsTrue result ↔ (get share.now.store name.now ≡ None) }
{
    share.store.get(name).is_none()
}

// How many devices that share the folder aren't at the winner of the name, whose entries these are; none, if the name is of
// another folder.
fn to_come_at(
    cut: &Cut,
    folder: &FolderName,
    other: &FolderName,
    name: &Name,
    group: &[TableEntry<'_>],
) -> usize
    requires group { IsGroupOf cut.now (other.now, name.now) (map listed group.now) }
    requires known { IsKnown (tables_of cut.now) other.now name.now }
    ensures few { result ≤ MAX_DEVICES }
    ensures count { AreSoManyOf (λ (pair : FileName × Device). pair.0) (IsToCome (tables_of cut.now) folder.now) (IsThere (tables_of cut.now) folder.now) folder.now other.now name.now result }
{
    entries_are_held();
    cut_says();
    if is_same(folder, other) {
        count_behind(cut.shares(folder), winner_of(group), name)
    } else {
        0
    }
}

// Whether these are one folder.
fn is_same(one: &FolderName, other: &FolderName) -> bool
    ensures { IsTrue result ↔ (one.now ≡ other.now) }
{
    *one == *other
}
