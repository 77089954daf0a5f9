//! The valid records among the entries of a name, and the top of them.
ghost use Rattle.std.specs.Prelude.{◌≡◌, ◌↔◌, IsTrue, IfOk, IfSome, IfNone, Contains, map};
ghost use Rattle.std.specs.Option.{option_copied};
ghost use Rattle.std.specs.List.Sorted.{IsSorted};
ghost use Rattle.bep_record.specs.declared.entry.Entry.{Entry};
ghost use Rattle.bep_record.specs.Vector.{IsAtMost};
ghost use Rattle.bep_tables.specs.Listed.{held, listed};
ghost use Rattle.bep_converge_check.specs.inner.Records.{valid_of, valid_held, own_held, IsIn, IsOwnIn, IsAbove, IsTopIn};
ghost use Rattle.bep_converge_check.specs.inner.Known.{IsHighestOwn, IsHigher, IsBelowIfValid};
ghost use Rattle.bep_converge_check.specs.inner.Weight.{weighed_cmp, record_of};

use crate::weight::Weighed;
use bep_record::{Record, Version};
use bep_tables::{Held, Source, TableEntry};
use std::alloc::{AllocError, Global};

/// The own record that is above all valid records of these entries; `None` exactly where there is none.
pub(crate) fn top_of<'a>(group: &[TableEntry<'a>]) -> Option<&'a Record>
    ensures top { IfSome result (λ top. IsTopIn (map listed group.now) top.now) }
    ensures none { IfNone result ((top : Entry) → ¬ IsTopIn (map listed group.now) top) }
{
    match highest_own(group) {
        None => None,
        Some(own) => if is_above(group, &own.entry().version) {
            Some(own)
        } else {
            None
        },
    }
}

// An own record that is the top, if any is.
fn highest_own<'a>(group: &[TableEntry<'a>]) -> Option<&'a Record>
    ensures { IsHighestOwn (map listed group.now) (map listed group.now) (option_copied result) }
{
    let mut highest = None;
    for entry in group {
        highest = higher(highest, own_of(entry));
    }
    highest
}

// The second, where it is above the first or there is no first.
fn higher<'a>(first: Option<&'a Record>, second: Option<&'a Record>) -> Option<&'a Record>
    ensures { IsHigher (option_copied first.entry) (option_copied second.entry) (option_copied result) }
{
    match (first, second) {
        (first, None) => first,
        (None, second) => second,
        (Some(first), Some(second)) => {
            if first.entry().version.is_at_most(&second.entry().version) {
                Some(second)
            } else {
                Some(first)
            }
        }
    }
}

// Whether each valid record of these entries has a version at most this one.
fn is_above(group: &[TableEntry<'_>], version: &Version) -> bool
    ensures { IsTrue result ↔ IsAbove (map listed group.now) version.now }
{
    group.iter().all(|entry| is_below(entry, version))
}

// Whether the entry's record, if it holds a valid one, has a version at most this one.
fn is_below(entry: &TableEntry<'_>, version: &Version) -> bool
    ensures { IsTrue result ↔ IsBelowIfValid version.now (listed entry.now) }
{
    match valid_record(entry) {
        None => true,
        Some(found) => found.entry().version.is_at_most(version),
    }
}

/// The valid records of these entries, by weight; or want of memory.
pub(crate) fn weighed<'a>(
    alloc: Global,
    group: &[TableEntry<'a>],
) -> Result<Vec<Weighed<'a>>, AllocError>
    ensures same { IfOk result (λ found. (entry : Entry) → Contains (map record_of found.items) entry ↔ IsIn (map listed group.now) entry) }
    ensures sorted { IfOk result (λ found. IsSorted weighed_cmp found.items) }
{
    let mut found = gathered(alloc, group)?;
    found.sort_unstable();
    Ok(found)
}

// The same, as they stand.
fn gathered<'a>(alloc: Global, group: &[TableEntry<'a>]) -> Result<Vec<Weighed<'a>>, AllocError>
    ensures { IfOk result (λ found. (entry : Entry) → Contains (map record_of found.items) entry ↔ IsIn (map listed group.now) entry) }
{
    let mut records = Vec::new(alloc);
    for entry in group {
        if let Some(found) = valid_record(entry) {
            records.push(Weighed { found })?;
        }
    }
    Ok(records)
}

/// The entry's record, if it holds a valid one.
pub(crate) fn valid_record<'a>(entry: &TableEntry<'a>) -> Option<&'a Record>
    ensures { option_copied result ≡ valid_held (held entry.now.held) }
{
    match entry.held {
        Held::Record(_, found) => if_valid(found),
        Held::Node(_) => None,
    }
}

/// The entry's record, if it holds a valid one of the device's own.
pub(crate) fn own_of<'a>(entry: &TableEntry<'a>) -> Option<&'a Record>
    ensures { option_copied result ≡ own_held (held entry.now.held) }
{
    match entry.held {
        Held::Record(Source::Own, own) => if_valid(own),
        Held::Record(_, _) => None,
        Held::Node(_) => None,
    }
}

// The record, if it is valid.
fn if_valid(found: &Record) -> Option<&Record>
    ensures { option_copied result ≡ valid_of found.now }
{
    if found.entry().invalid {
        None
    } else {
        Some(found)
    }
}
