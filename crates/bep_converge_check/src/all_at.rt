//! All that fails at one name.
ghost use Rattle.std.specs.Prelude.{◌≡◌, ◌++◌, ◌∷◌, [], ◌↔◌, Some, None, IfSome, IfNone, IsTrue, IfOk, OnOk, Contains, map, if◌then◌else◌};
ghost use Rattle.bep_record.specs.declared.entry.Entry.{Entry};
ghost use Rattle.bep_model.specs.Foreign.{IsKnown};
ghost use Rattle.bep_tables.specs.Cut.{tables_of, shares_of};
ghost use Rattle.bep_tables.specs.Listed.{listed};
ghost use Rattle.bep_audit.specs.Group.{IsGroupOf};
ghost use Rattle.bep_converge.specs.declared.converge_reason.ConvergeReason.TheVariants as reasons;
ghost use Rattle.bep_converge.specs.ConvergeReasons.{AsksWhole};
ghost use Rattle.bep_gather.specs.Adding.{AddsFailing, Each};
ghost use Rattle.bep_converge_check.specs.Hindrance.{hinder_shown};
ghost use Rattle.bep_converge_check.specs.inner.Line.{AreInLine, Agree};
ghost use Rattle.bep_converge_check.specs.inner.Records.{IsIn, IsTopIn};
ghost use Rattle.bep_converge_check.specs.inner.Says.{SaysName, SaysShare, SaysWhole};

use crate::among::meets_among;
use crate::at_name::{at_device, at_whole};
use crate::hindrance::Hindrance;
use crate::known::{top_of, weighed};
use crate::line::{agree, are_in_line};
use crate::unmet::OF_DEVICES;
use bep_audit::{Spot, has_known};
use bep_converge::ConvergeReason;
use bep_record::{FolderName, Name, Record};
use bep_tables::{Cut, Share, TableEntry, cut_says, entries_are_held};
use std::alloc::{AllocError, Global};

/// Adds all that fails at the name, whose entries these are; or want of memory.
pub(crate) fn add_all_at<'a>(
    alloc: Global,
    found: &mut Vec<Hindrance<'a>>,
    cut: &Cut,
    group: &[TableEntry<'a>],
    folder: &'a FolderName,
    name: &'a Name,
) -> Result<(), AllocError>
    requires { IsGroupOf cut.now (folder.now, name.now) (map listed group.now) }
    ensures { OnOk result (AddsFailing (SaysName (tables_of cut.now) (folder.now, name.now)) (map hinder_shown found.old.items) (map hinder_shown found.new.items)) }
{
    entries_are_held();
    cut.is_a_cut();
    if has_known(group) {
        add_known(alloc, found, cut, group, folder, name)
    } else {
        Ok(())
    }
}

// The same of a known name.
fn add_known<'a>(
    alloc: Global,
    found: &mut Vec<Hindrance<'a>>,
    cut: &Cut,
    group: &[TableEntry<'a>],
    folder: &'a FolderName,
    name: &'a Name,
) -> Result<(), AllocError>
    requires group { IsGroupOf cut.now (folder.now, name.now) (map listed group.now) }
    requires known { IsKnown (tables_of cut.now) folder.now name.now }
    ensures { OnOk result (AddsFailing (SaysName (tables_of cut.now) (folder.now, name.now)) (map hinder_shown found.old.items) (map hinder_shown found.new.items)) }
{
    entries_are_held();
    cut_says();
    cut.is_a_cut();
    let top = top_of(group);
    let whole = WholeName::of(alloc, group)?;
    add_unless(
        found,
        top.is_some(),
        &at_whole(ConvergeReason::NothingPrevails, folder, name),
    )?;
    add_unless(
        found,
        whole.in_line,
        &at_whole(ConvergeReason::Concurrent, folder, name),
    )?;
    add_unless(
        found,
        whole.agree,
        &at_whole(ConvergeReason::ContentDiffers, folder, name),
    )?;
    add_devices(found, cut, group, top, folder, name)?;
    Ok(())
}

// What is asked of the records of a name as a whole: whether they are in line, and whether equal versions have equal contents.
#[derive(Clone, Copy)]
struct WholeName {
    in_line: bool,
    agree: bool,
}

impl WholeName {
    // Of these entries; or want of memory.
    fn of(alloc: Global, group: &[TableEntry<'_>]) -> Result<Self, AllocError>
        ensures in_line { IfOk result (λ whole. IsTrue whole.in_line ↔ AreInLine (IsIn (map listed group.now))) }
        ensures agree { IfOk result (λ whole. IsTrue whole.agree ↔ Agree (IsIn (map listed group.now))) }
    {
        let records = weighed(alloc, group)?;
        let sorted = records.as_slice();
        Ok(WholeName {
            in_line: are_in_line(sorted),
            agree: agree(sorted),
        })
    }
}

// Adds what fails on each device that shares the folder, by the entries of the name, of which this is the top.
fn add_devices<'a>(
    found: &mut Vec<Hindrance<'a>>,
    cut: &Cut,
    group: &[TableEntry<'a>],
    top: Option<&Record>,
    folder: &'a FolderName,
    name: &'a Name,
) -> Result<(), AllocError>
    requires group { IsGroupOf cut.now (folder.now, name.now) (map listed group.now) }
    requires top { IfSome top (λ one. IsTopIn (map listed group.now) one.now) }
    requires none { IfNone top ((one : Entry) → ¬ IsTopIn (map listed group.now) one) }
    ensures { OnOk result (AddsFailing (Each (SaysShare (tables_of cut.now) (folder.now, name.now)) (shares_of folder.now cut.now.folders)) (map hinder_shown found.old.items) (map hinder_shown found.new.items)) }
{
    for share in cut.shares(folder) {
        add_device(found, cut, group, top, folder, name, share)?;
    }
    Ok(())
}

// Adds what fails on this device.
fn add_device<'a>(
    found: &mut Vec<Hindrance<'a>>,
    cut: &Cut,
    group: &[TableEntry<'a>],
    top: Option<&Record>,
    folder: &'a FolderName,
    name: &'a Name,
    share: &Share,
) -> Result<(), AllocError>
    requires group { IsGroupOf cut.now (folder.now, name.now) (map listed group.now) }
    requires top { IfSome top (λ one. IsTopIn (map listed group.now) one.now) }
    requires none { IfNone top ((one : Entry) → ¬ IsTopIn (map listed group.now) one) }
    requires share { Contains (shares_of folder.now cut.now.folders) share.now }
    ensures { OnOk result (AddsFailing (SaysShare (tables_of cut.now) (folder.now, name.now) share.now) (map hinder_shown found.old.items) (map hinder_shown found.new.items)) }
{
    entries_are_held();
    cut_says();
    cut.is_a_cut();
    for reason in OF_DEVICES {
        let met = meets_among(reason, group, top, name, share);
        add_unless(found, met, &at_device(reason, folder, name, share.device))?;
    }
    Ok(())
}

// Adds this one, unless what it tells of holds.
fn add_unless<'a>(
    found: &mut Vec<Hindrance<'a>>,
    holds: bool,
    one: &Hindrance<'a>,
) -> Result<(), AllocError>
    ensures { OnOk result (map hinder_shown found.new.items ≡ (if holds then map hinder_shown found.old.items else map hinder_shown found.old.items ++ hinder_shown one.now ∷ [])) }
{
    if !holds {
        found.reserve(1)?;
        found.push_reserved(copy_of(one));
    }
    Ok(())
}

/// The same, lent from where it is lent.
pub(crate) fn copy_of<'a>(one: &Hindrance<'a>) -> Hindrance<'a>
    ensures { result ≡ one.now }
{
    let spot = Spot {
        folder: one.spot.folder,
        name: one.spot.name,
        device: one.spot.device,
    };
    Hindrance {
        reason: one.reason,
        spot,
    }
}
