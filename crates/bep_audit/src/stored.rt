//! A device's node among the entries of a name.
ghost use Rattle.std.specs.Prelude.{◌≡◌, map};
ghost use Rattle.std.specs.Option.{option_copied};
ghost use Rattle.bep_tables.specs.Listed.{listed};
ghost use Rattle.bep_audit.specs.Candidates.{picked_at};
ghost use Rattle.bep_audit.specs.inner.Faultless.{node_held, node_among};

use bep_record::{DeviceId, Node};
use bep_tables::{Held, TableEntry};

// The device's node among the entries.
pub(crate) fn node_among<'a>(group: &[TableEntry<'a>], device: DeviceId) -> Option<&'a Node>
    ensures { option_copied result ≡ node_among device (map listed group.now) }
{
    for entry in group {
        if let Some(node) = node_at(entry, device) {
            return Some(node);
        }
    }
    None
}

// The entry's node, if it is the device's.
fn node_at<'a>(entry: &TableEntry<'a>, device: DeviceId) -> Option<&'a Node>
    ensures { option_copied result ≡ picked_at node_held device (listed entry.now) }
{
    if entry.device != device {
        return None;
    }
    match entry.held {
        Held::Node(node) => Some(node),
        Held::Record(_, _) => None,
    }
}
