//! How many devices aren't at the winner of a name.
ghost use Rattle.std.specs.Prelude.{◌≡◌, ◌≤◌, ◌↔◌, IsTrue, length, map};
ghost use Rattle.std.specs.FinMap.{get};
ghost use Rattle.std.specs.Option.{option_copied};
ghost use Rattle.std.specs.List.Sorted.{IsStrictlyIncreasing};
ghost use Rattle.bep_record.specs.Content.{content_of};
ghost use Rattle.bep_record.specs.Vector.{IsAtMost};
ghost use Rattle.bep_tables.specs.Cut.{devices_of};
ghost use Rattle.bep_tables.specs.Listed.{listed};
ghost use Rattle.bep_converge_check.specs.SoMany.{AreSoMany};
ghost use Rattle.bep_converge_check.specs.inner.Behind.{AgreesIfAbove, AllAgree, FindsWinner, IsAtWinner, IsBehindAmong, IsUpAmong};

use crate::known::{own_of, top_of};
use crate::meets::{is_at_top, is_no_local_change};
use bep_record::{Name, Record};
use bep_tables::{Share, TableEntry};

/// The winner of these entries: the top of their valid records, where all tops have one content; `None` exactly where there is
/// none.
pub(crate) fn winner_of<'a>(group: &[TableEntry<'a>]) -> Option<&'a Record>
    ensures { FindsWinner (map listed group.now) (option_copied result) }
{
    match top_of(group) {
        None => None,
        Some(top) => if all_agree(group, top) {
            Some(top)
        } else {
            None
        },
    }
}

// Whether each own record that is above this one has its content.
fn all_agree(group: &[TableEntry<'_>], top: &Record) -> bool
    ensures { IsTrue result ↔ AllAgree (map listed group.now) top.now }
{
    group.iter().all(|entry| agrees_if_above(entry, top))
}

// Whether the entry's own record, if it holds one that is above this one, has its content.
fn agrees_if_above(entry: &TableEntry<'_>, top: &Record) -> bool
    ensures { IsTrue result ↔ AgreesIfAbove top.now (listed entry.now) }
{
    match own_of(entry) {
        None => true,
        Some(own) => is_like(own, top),
    }
}

// Whether the record isn't above the other one, or has its content.
fn is_like(own: &Record, top: &Record) -> bool
    ensures { IsTrue result ↔ (IsAtMost top.now.version own.now.version → content_of own.now ≡ content_of top.now) }
{
    !top.entry().version.is_at_most(&own.entry().version) || own.same_content(top)
}

/// How many of these devices, which rise, aren't at the winner of the name; all of them, where it has none.
pub(crate) fn count_behind(shares: &[Share], winner: Option<&Record>, name: &Name) -> usize
    requires { IsStrictlyIncreasing (devices_of shares.now) }
    ensures few { result ≤ length shares.now }
    ensures count { AreSoMany (IsBehindAmong (option_copied winner.entry) name.now shares.now) (IsUpAmong (option_copied winner.entry) name.now shares.now) result }
{
    let mut count = 0;
    for share in shares {
        if !is_up(winner, name, share) {
            count += 1;
        }
    }
    count
}

// Whether there is a winner, and the share's device is at it.
fn is_up(winner: Option<&Record>, name: &Name, share: &Share) -> bool
    ensures { IsTrue result ↔ IsAtWinner (option_copied winner.entry) (get share.now.own name.now) }
{
    is_at_winner(winner, share.own.get(name))
}

// Whether there is a winner, and this own record is at it, and no local change.
fn is_at_winner(winner: Option<&Record>, own: Option<&Record>) -> bool
    ensures { IsTrue result ↔ IsAtWinner (option_copied winner.entry) (option_copied own.entry) }
{
    match winner {
        None => false,
        Some(top) => is_at_top(own, top) && is_no_local_change(own),
    }
}
