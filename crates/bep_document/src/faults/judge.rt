//! Looking for the first fault in lists that stand in one another, and for keys that are there already.
ghost use Rattle.std.specs.Prelude.{◌≡◌, ◌↔◌, IfOk, IsTrue, Bool, List, Option, [], false, map};
ghost use Rattle.std.specs.List.Sorted.{IsStrictlySortedBy};
ghost use Rattle.bep_document.specs.declared.fault.DocFault.{DocFault};
ghost use Rattle.bep_document.specs.faults.Judge.{first_in, by_key};

use crate::DocFault;
use std::alloc::{AllocError, Global};
use std::cmp::Ordering;
use std::collections::BTreeSet;

/// The first fault, if there is one, or want of memory.
pub type Found = Result<Option<DocFault>, AllocError>;

/// What the first of these searches finds, or else the next: each is made only where those before it found no fault.
#[macro_export]
macro_rules! first_of {
    ($last:expr) => {
        $last
    };
    ($first:expr, $($more:expr),+) => {
        match $first? {
            Some(fault) => Ok(Some(fault)),
            None => $crate::first_of!($($more),+),
        }
    };
}

/// A judge of the items of a list, which looks for one kind of fault.
pub trait Judge<T> {
    /// The first fault at an item, given the items before it.
    ghost fault_at: { Self → List T → T → Option DocFault };

    /// The first fault at the item, given the items before it, or want of memory.
    fn fault_at(&self, alloc: Global, earlier: &[T], item: &T) -> Found
        ensures { IfOk result (λ found. found ≡ fault_at self.now earlier.now item.now) };
}

/// The first fault among the items, or want of memory.
pub fn first_fault<T, J: Judge<T>>(alloc: Global, judge: &J, items: &[T]) -> Found
    ensures { IfOk result (λ found. found ≡ first_in (J.fault_at judge.now) [] items.now) }
{
    for (i, item) in items.iter().enumerate() {
        match judge.fault_at(alloc, &items[..i], item)? {
            Some(fault) => return Ok(Some(fault)),
            None => {}
        }
    }
    Ok(None)
}

/// A judge of items that have a key each, and for whom it counts whether an earlier item has that key.
pub(crate) trait JudgeKeyed<T> {
    /// What tells the items apart.
    type Key: Ord + Drop;

    /// The key of an item.
    ghost key_of: { T → Self.Key };

    /// The first fault at an item, given whether an earlier one has its key.
    ghost fault_at: { Self → Bool → T → Option DocFault };

    /// The key of the item, or want of memory.
    fn key_of(&self, alloc: Global, item: &T) -> Result<Self::Key, AllocError>
        ensures { IfOk result (λ key. key ≡ key_of item.now) };

    /// How the keys of two items compare. Takes no memory.
    fn compare(&self, one: &T, other: &T) -> Ordering
        ensures { result ≡ Self.Key.cmp (key_of one.now) (key_of other.now) };

    /// The first fault at the item, given whether an earlier one has its key, or want of memory.
    fn fault_at(&self, alloc: Global, is_again: bool, item: &T) -> Found
        ensures { IfOk result (λ found. found ≡ fault_at self.now is_again item.now) };
}

// The first fault among the items, or want of memory. Keys that rise are neither copied nor kept.
pub(crate) fn first_keyed<T, J: JudgeKeyed<T>>(alloc: Global, judge: &J, items: &[T]) -> Found
    ensures { IfOk result (λ found. found ≡ first_in (by_key J.Key.eq J.key_of (J.fault_at judge.now)) [] items.now) }
{
    if keys_rise(judge, items) {
        return first_of_distinct(alloc, judge, items);
    }
    first_by_seen(alloc, judge, items)
}

// Whether the key of each item is above those before it. Takes no memory.
fn keys_rise<T, J: JudgeKeyed<T>>(judge: &J, items: &[T]) -> bool
    ensures { IsTrue result ↔ IsStrictlySortedBy J.Key.cmp (map J.key_of items.now) }
{
    for place in 1..items.len() {
        let order = judge.compare(&items[place - 1], &items[place]);
        if !order.is_lt() {
            return false;
        }
    }
    true
}

// The first fault among items none of which has the key of an earlier one, or want of memory.
fn first_of_distinct<T, J: JudgeKeyed<T>>(alloc: Global, judge: &J, items: &[T]) -> Found
    ensures { IfOk result (λ found. found ≡ first_in (λ _. J.fault_at judge.now false) [] items.now) }
{
    for item in items {
        match judge.fault_at(alloc, false, item)? {
            Some(fault) => return Ok(Some(fault)),
            None => {}
        }
    }
    Ok(None)
}

// The first fault among the items, by a set of the keys so far, or want of memory.
fn first_by_seen<T, J: JudgeKeyed<T>>(alloc: Global, judge: &J, items: &[T]) -> Found
    ensures { IfOk result (λ found. found ≡ first_in (by_key J.Key.eq J.key_of (J.fault_at judge.now)) [] items.now) }
{
    let mut seen = BTreeSet::new(alloc);
    for item in items {
        let is_new = seen.insert(judge.key_of(alloc, item)?)?;
        match judge.fault_at(alloc, !is_new, item)? {
            Some(fault) => return Ok(Some(fault)),
            None => {}
        }
    }
    Ok(None)
}
