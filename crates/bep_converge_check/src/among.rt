//! What each reason asks of a device by all entries of the name, whether or not one record is above them.
ghost use Rattle.std.specs.Prelude.{◌≡◌, ◌≢◌, ◌⊎◌, ◌≤◌, ◌↔◌, IsTrue, IfSome, IfNone, Contains, map};
ghost use Rattle.std.specs.Option.{option_copied};
ghost use Rattle.bep_record.specs.declared.entry.Entry.{Entry};
ghost use Rattle.bep_record.specs.declared.folder_kind.FolderKind.TheVariants as kinds;
ghost use Rattle.bep_record.specs.Vector.{counter_of, IsAtMost};
ghost use Rattle.bep_machine.specs.Replica.{version_of};
ghost use Rattle.bep_tables.specs.Listed.{Listed, listed};
ghost use Rattle.bep_converge.specs.Prevails.{IsAtTop};
ghost use Rattle.bep_converge_check.specs.inner.Records.{IsIn, IsTopIn};
ghost use Rattle.bep_converge_check.specs.inner.Says.{AsksAmong, AsksShareAmong, IsAtIfAbove, IsCountedIfValid};

use crate::known::{own_of, valid_record};
use crate::meets::{counted, holds_own, is_at_top, is_no_local_change};
use bep_converge::ConvergeReason;
use bep_record::{DeviceId, FolderKind, Name, Node, Record, is_clean};
use bep_tables::{Share, TableEntry};

/// Whether the share's device meets what the reason asks of it by these entries of the name, of which this is the top.
pub(crate) fn meets_among(
    reason: ConvergeReason,
    group: &[TableEntry<'_>],
    top: Option<&Record>,
    name: &Name,
    share: &Share,
) -> bool
    requires top { IfSome top (λ one. IsTopIn (map listed group.now) one.now) }
    requires none { IfNone top ((one : Entry) → ¬ IsTopIn (map listed group.now) one) }
    ensures { IsTrue result ↔ AsksShareAmong (map listed group.now) reason name.now share.now }
{
    let (own, node) = (share.own.get(name), share.store.get(name));
    meets_own_among(reason, group, top, share.device, share.kind, own, node)
}

// Whether a device with this own record and this node meets it, which shares the folder in this kind.
fn meets_own_among(
    reason: ConvergeReason,
    group: &[TableEntry<'_>],
    top: Option<&Record>,
    device: DeviceId,
    kind: FolderKind,
    own: Option<&Record>,
    node: Option<&Node>,
) -> bool
    requires top { IfSome top (λ one. IsTopIn (map listed group.now) one.now) }
    requires none { IfNone top ((one : Entry) → ¬ IsTopIn (map listed group.now) one) }
    ensures { IsTrue result ↔ AsksAmong (map listed group.now) reason device kind (option_copied own.entry) (option_copied node.entry) }
{
    match reason {
        ConvergeReason::LocalOnly => is_no_local_change(own),
        ConvergeReason::StoreUnclean => is_clean(node, own),
        ConvergeReason::StoreDiffers => holds_own(node, own),
        ConvergeReason::SendOnly => takes_or_is_at(kind, group, top, own),
        ConvergeReason::WouldCopy => counts_each(group, own, device),
        _ => true,
    }
}

// Whether a device that shares the folder in this kind takes changes, or its own record is at each top of these entries.
fn takes_or_is_at(
    kind: FolderKind,
    group: &[TableEntry<'_>],
    top: Option<&Record>,
    own: Option<&Record>,
) -> bool
    requires top { IfSome top (λ one. IsTopIn (map listed group.now) one.now) }
    requires none { IfNone top ((one : Entry) → ¬ IsTopIn (map listed group.now) one) }
    ensures { IsTrue result ↔ ((one : Entry) → IsTopIn (map listed group.now) one → IsAtTop (option_copied own.entry) one ⊎ (kind ≢ kinds.SendOnly)) }
{
    match kind {
        FolderKind::SendOnly => is_at_tops(group, top, own),
        FolderKind::SendReceive => true,
        FolderKind::ReceiveOnly => true,
    }
}

// Whether the own record is at each top of these entries, of which this is one, if there is any.
fn is_at_tops(group: &[TableEntry<'_>], top: Option<&Record>, own: Option<&Record>) -> bool
    requires top { IfSome top (λ one. IsTopIn (map listed group.now) one.now) }
    requires none { IfNone top ((one : Entry) → ¬ IsTopIn (map listed group.now) one) }
    ensures { IsTrue result ↔ ((one : Entry) → IsTopIn (map listed group.now) one → IsAtTop (option_copied own.entry) one) }
{
    match top {
        None => true,
        Some(one) => is_at_each(group, one, own),
    }
}

// Whether it is at each own record of these entries that is above the top.
fn is_at_each(group: &[TableEntry<'_>], top: &Record, own: Option<&Record>) -> bool
    ensures { IsTrue result ↔ ((one : Listed) → Contains (map listed group.now) one → IsAtIfAbove (option_copied own.entry) top.now one) }
{
    group.iter().all(|entry| is_at_if_above(own, top, entry))
}

// Whether it is at the entry's own record, if it holds one that is above the top.
fn is_at_if_above(own: Option<&Record>, top: &Record, entry: &TableEntry<'_>) -> bool
    ensures { IsTrue result ↔ IsAtIfAbove (option_copied own.entry) top.now (listed entry.now) }
{
    match own_of(entry) {
        None => true,
        Some(other) => is_at_above(own, top, other),
    }
}

// Whether it is at the other record, if that is above the top.
fn is_at_above(own: Option<&Record>, top: &Record, other: &Record) -> bool
    ensures { IsTrue result ↔ (IsAtMost top.now.version other.now.version → IsAtTop (option_copied own.entry) other.now) }
{
    !top.entry().version.is_at_most(&other.entry().version) || is_at_top(own, other)
}

// Whether each valid record of these entries counts no more of the device's own changes than its own record does.
fn counts_each(group: &[TableEntry<'_>], own: Option<&Record>, device: DeviceId) -> bool
    ensures { IsTrue result ↔ ((entry : Entry) → IsIn (map listed group.now) entry → counter_of entry.version device ≤ counter_of (version_of (option_copied own.entry)) device) }
{
    group
        .iter()
        .all(|entry| counts_if_valid(own, device, entry))
}

// Whether the entry's record, if it holds a valid one, does.
fn counts_if_valid(own: Option<&Record>, device: DeviceId, entry: &TableEntry<'_>) -> bool
    ensures { IsTrue result ↔ IsCountedIfValid (option_copied own.entry) device (listed entry.now) }
{
    match valid_record(entry) {
        None => true,
        Some(found) => counts_no_more(found, own, device),
    }
}

// Whether the record counts no more of the device's changes than the own one does.
fn counts_no_more(found: &Record, own: Option<&Record>, device: DeviceId) -> bool
    ensures { IsTrue result ↔ (counter_of found.now.version device ≤ counter_of (version_of (option_copied own.entry)) device) }
{
    found.entry().version.get(device) <= counted(own, device)
}
