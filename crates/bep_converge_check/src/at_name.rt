//! The first reason that fails at one name.
ghost use Rattle.std.specs.Prelude.{◌≡◌, ◌↔◌, Some, None, IfOk, Contains, map, option_map};
ghost use Rattle.std.specs.List.Sorted.{IsSorted};
ghost use Rattle.bep_record.specs.declared.entry.Entry.{Entry};
ghost use Rattle.bep_model.specs.Foreign.{IsKnown};
ghost use Rattle.bep_tables.specs.Cut.{tables_of};
ghost use Rattle.bep_tables.specs.Listed.{listed};
ghost use Rattle.bep_audit.specs.Group.{IsGroupOf};
ghost use Rattle.bep_converge.specs.Prevails.{IsAnywhere, IsTop};
ghost use Rattle.bep_converge_check.specs.inner.Records.{IsTopIn};
ghost use Rattle.bep_converge_check.specs.Hindrance.{hinder_shown};
ghost use Rattle.bep_converge_check.specs.inner.Found.{FindsHinder};
ghost use Rattle.bep_converge_check.specs.inner.Line.{AreInLine, Agree};
ghost use Rattle.bep_converge_check.specs.inner.Weight.{weighed_cmp, record_of};

use crate::alike::are_alike;
use crate::hindrance::Hindrance;
use crate::known::{top_of, weighed};
use crate::line::{agree, are_in_line};
use crate::unmet::first_unmet;
use crate::weight::Weighed;
use bep_audit::{Spot, has_known};
use bep_converge::ConvergeReason;
use bep_record::{DeviceId, FolderName, Name, Record};
use bep_tables::{Cut, TableEntry, cut_says, entries_are_held};
use std::alloc::{AllocError, Global};

/// The least reason that fails at the name, whose entries these are, at its first place; or want of memory.
pub(crate) fn hindrance_at<'a>(
    alloc: Global,
    cut: &Cut,
    group: &[TableEntry<'a>],
    folder: &'a FolderName,
    name: &'a Name,
) -> Result<Option<Hindrance<'a>>, AllocError>
    requires { IsGroupOf cut.now (folder.now, name.now) (map listed group.now) }
    ensures { IfOk result (λ found. FindsHinder (tables_of cut.now) (λ key. key ≡ (folder.now, name.now)) (option_map hinder_shown found)) }
{
    entries_are_held();
    cut.is_a_cut();
    if !has_known(group) {
        return Ok(None);
    }
    match top_of(group) {
        None => Ok(Some(at_whole(ConvergeReason::NothingPrevails, folder, name))),
        Some(top) => below_top(alloc, cut, group, folder, name, top),
    }
}

// The same of a known name that has a top.
fn below_top<'a>(
    alloc: Global,
    cut: &Cut,
    group: &[TableEntry<'a>],
    folder: &'a FolderName,
    name: &'a Name,
    top: &Record,
) -> Result<Option<Hindrance<'a>>, AllocError>
    requires group { IsGroupOf cut.now (folder.now, name.now) (map listed group.now) }
    requires known { IsKnown (tables_of cut.now) folder.now name.now }
    requires top { IsTopIn (map listed group.now) top.now }
    ensures { IfOk result (λ found. FindsHinder (tables_of cut.now) (λ key. key ≡ (folder.now, name.now)) (option_map hinder_shown found)) }
{
    entries_are_held();
    cut.is_a_cut();
    if are_alike(group, top) {
        return Ok(beside_devices(cut, folder, name, top));
    }
    let records = weighed(alloc, group)?;
    Ok(beside_records(cut, records.as_slice(), folder, name, top))
}

// The same, where these are all valid records of the name, by weight.
fn beside_records<'a>(
    cut: &Cut,
    sorted: &[Weighed<'_>],
    folder: &'a FolderName,
    name: &'a Name,
    top: &Record,
) -> Option<Hindrance<'a>>
    requires known { IsKnown (tables_of cut.now) folder.now name.now }
    requires top { IsTop (tables_of cut.now) folder.now name.now top.now }
    requires sorted { IsSorted weighed_cmp sorted.now }
    requires all { (entry : Entry) → Contains (map record_of sorted.now) entry ↔ IsAnywhere (tables_of cut.now) folder.now name.now entry }
    ensures { FindsHinder (tables_of cut.now) (λ key. key ≡ (folder.now, name.now)) (option_map hinder_shown result) }
{
    if !are_in_line(sorted) {
        return Some(at_whole(ConvergeReason::Concurrent, folder, name));
    }
    if !agree(sorted) {
        return Some(at_whole(ConvergeReason::ContentDiffers, folder, name));
    }
    beside_devices(cut, folder, name, top)
}

// The same, where all records of the name are in line, and equal versions have equal contents.
fn beside_devices<'a>(
    cut: &Cut,
    folder: &'a FolderName,
    name: &'a Name,
    top: &Record,
) -> Option<Hindrance<'a>>
    requires known { IsKnown (tables_of cut.now) folder.now name.now }
    requires top { IsTop (tables_of cut.now) folder.now name.now top.now }
    requires in_line { AreInLine (IsAnywhere (tables_of cut.now) folder.now name.now) }
    requires agree { Agree (IsAnywhere (tables_of cut.now) folder.now name.now) }
    ensures { FindsHinder (tables_of cut.now) (λ key. key ≡ (folder.now, name.now)) (option_map hinder_shown result) }
{
    cut_says();
    match first_unmet(cut.shares(folder), top, name) {
        None => None,
        Some(one) => Some(at_device(one.0, folder, name, one.1)),
    }
}

/// That the reason fails at the name as a whole.
pub(crate) fn at_whole<'a>(
    reason: ConvergeReason,
    folder: &'a FolderName,
    name: &'a Name,
) -> Hindrance<'a>
    ensures { hinder_shown result ≡ (record { reason = reason; place = record { folder = folder.now; name = name.now; device = None } }) }
{
    Hindrance {
        reason,
        spot: Spot::of_name(folder, name),
    }
}

/// That the reason fails at a device's part of the name.
pub(crate) fn at_device<'a>(
    reason: ConvergeReason,
    folder: &'a FolderName,
    name: &'a Name,
    device: DeviceId,
) -> Hindrance<'a>
    ensures { hinder_shown result ≡ (record { reason = reason; place = record { folder = folder.now; name = name.now; device = Some device } }) }
{
    Hindrance {
        reason,
        spot: Spot {
            folder,
            name,
            device: Some(device),
        },
    }
}
