//! What the entries of one name say: whether it is known, and what each reason asks of its devices.
ghost use Rattle.std.specs.Prelude.{◌↔◌, IsTrue, map};
ghost use Rattle.std.specs.Option.{option_copied};
ghost use Rattle.bep_tables.specs.Listed.{listed};
ghost use Rattle.bep_audit.specs.Group.{HasEntry, PassesFrom, GroupPasses, AsksElsewhere, AsksBeside, AsksGroup, GroupIsKnown, GroupIsAsked};

use crate::{is_harmless, meets_share, share_is_asked};
use bep_model::{Reason, Row};
use bep_record::{DeviceId, Node, Record};
use bep_tables::{Held, Share, Source, TableEntry, cut_says, entries_are_held};

/// Whether the name of these entries is known: each entry makes it known.
pub fn has_known(group: &[TableEntry<'_>]) -> bool
    ensures { IsTrue result ↔ HasEntry (map listed group.now) }
{
    !group.is_empty()
}

/// Whether the device meets what the reason asks of it beside the row. These are the entries of the row's name.
pub(crate) fn meets_group(
    reason: Reason,
    row: &Row,
    group: &[TableEntry<'_>],
    share: &Share,
) -> bool
    ensures { IsTrue result ↔ AsksGroup reason row.now (map listed group.now) share.now }
{
    let name = &row.entry.entry().name;
    let (own, node) = (share.own.get(name), share.store.get(name));
    meets_beside(reason, row, group, share.device, own, node)
}

/// The same of a device with this own record and this node of the row's name.
pub fn meets_beside(
    reason: Reason,
    row: &Row,
    group: &[TableEntry<'_>],
    device: DeviceId,
    own: Option<&Record>,
    node: Option<&Node>,
) -> bool
    ensures { IsTrue result ↔ AsksBeside reason row.now (map listed group.now) device (option_copied own.entry) (option_copied node.entry) }
{
    meets_share(reason, own, node, &row.entry) && meets_elsewhere(reason, row, group, device, own)
}

/// What the entries of a name say is what the tables of the cut say of it: laws, which do nothing when they run.
pub fn group_says()
    ensures known { GroupIsKnown }
    ensures asked { GroupIsAsked }
{
    cut_says();
    entries_are_held();
    share_is_asked();
}

// Whether the device meets it by its foreign records.
fn meets_elsewhere(
    reason: Reason,
    row: &Row,
    group: &[TableEntry<'_>],
    device: DeviceId,
    own: Option<&Record>,
) -> bool
    ensures { IsTrue result ↔ AsksElsewhere reason row.now (map listed group.now) device (option_copied own.entry) }
{
    match reason {
        Reason::ViewAhead => all_pass(Source::View, row, group, device, own),
        Reason::FlightAhead => all_pass(Source::Flight, row, group, device, own),
        Reason::PullAhead => all_pass(Source::Pull, row, group, device, own),
        _ => true,
    }
}

// Whether each of the device's records from there is harmless.
fn all_pass(
    source: Source,
    row: &Row,
    group: &[TableEntry<'_>],
    device: DeviceId,
    own: Option<&Record>,
) -> bool
    ensures { IsTrue result ↔ GroupPasses source device row.now (option_copied own.entry) (map listed group.now) }
{
    group
        .iter()
        .all(|entry| passes_from(source, row, entry, device, own))
}

// Whether the entry is of another device or from elsewhere, or its record is harmless.
fn passes_from(
    source: Source,
    row: &Row,
    entry: &TableEntry<'_>,
    device: DeviceId,
    own: Option<&Record>,
) -> bool
    ensures { IsTrue result ↔ PassesFrom source device row.now (option_copied own.entry) (listed entry.now) }
{
    if entry.device != device {
        return true;
    }
    match entry.held {
        Held::Node(_) => true,
        Held::Record(from, found) => from != source || is_harmless(own, &row.entry, found),
    }
}
