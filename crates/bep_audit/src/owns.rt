//! Where the own records of a name are looked up.
ghost use Rattle.std.specs.Prelude.{◌≡◌, map};
ghost use Rattle.std.specs.Option.{option_copied};
ghost use Rattle.bep_tables.specs.Listed.{listed};
ghost use Rattle.bep_audit.specs.Candidates.{own_held, own_among, own_by, picked_at};

use bep_record::{DeviceId, Name, Record};
use bep_tables::{Held, Share, Source, TableEntry};

// Where the own records of a name are looked up.
#[derive(Clone, Copy)]
pub(crate) enum Owns<'s, 'a> {
    // By the name, in each device's own records.
    Named(&'s Name),
    // Among the entries of the name.
    Grouped(&'s [TableEntry<'a>]),
}

impl<'s, 'a> Owns<'s, 'a> {
    // The own record of the share's device, if it has one.
    pub(crate) fn of_share(self, share: &'a Share) -> Option<&'a Record>
        ensures { option_copied result ≡ own_by self.entry share.now }
    {
        match self {
            Owns::Named(name) => share.own.get(name),
            Owns::Grouped(group) => own_among(group, share.device),
        }
    }
}

// The device's own record among the entries.
pub(crate) fn own_among<'a>(group: &[TableEntry<'a>], device: DeviceId) -> Option<&'a Record>
    ensures { option_copied result ≡ own_among device (map listed group.now) }
{
    for entry in group {
        if let Some(own) = own_at(entry, device) {
            return Some(own);
        }
    }
    None
}

// The entry's record, if it is the device's own.
fn own_at<'a>(entry: &TableEntry<'a>, device: DeviceId) -> Option<&'a Record>
    ensures { option_copied result ≡ picked_at own_held device (listed entry.now) }
{
    if entry.device != device {
        return None;
    }
    match entry.held {
        Held::Record(Source::Own, own) => Some(own),
        Held::Record(_, _) => None,
        Held::Node(_) => None,
    }
}
