//! Records of deletions.
ghost use Rattle.std.specs.Prelude.{◌≡◌, IfOk};
ghost use Rattle.bep_machine.specs.Local.{deletion_of};

use bep_record::{DeviceId, Entry, Items, Name, Record, Target, Vector, Version};
use std::alloc::{AllocError, Global};

/// The device's deletion of the name, with this record's kind and time, or want of memory.
pub(crate) fn deletion(
    alloc: Global,
    device: DeviceId,
    name: Name,
    old: &Record,
    version: &Vector,
) -> Result<Record, AllocError>
    ensures { IfOk result (λ made. made ≡ deletion_of device name old.now version.now) }
{
    let old = old.entry();
    let version = Version::of(alloc, version)?;
    let entry = Entry {
        name,
        kind: old.kind,
        size: 0,
        modified_s: old.modified_s,
        modified_ns: old.modified_ns,
        modified_by: device,
        deleted: true,
        invalid: false,
        no_permissions: true,
        version,
        sequence: 0,
        block_size: 0,
        blocks: Items::new(Vec::new(alloc)),
        target: Target::empty(alloc),
    };
    Record::of(alloc, entry)
}
