//! Override: in a send-only folder the own record wins over another device's.
ghost use Rattle.std.specs.Prelude.{◌≡◌, false, ◌↔◌, ◌⊎◌, ◌<◌, max, IfOk, IfErr, IsErrOf, IsTrue};
ghost use Rattle.std.specs.Option.{option_copied};
ghost use Rattle.bep_record.specs.Vector.{counter_of, greatest_counter, most_counters, IsVersion};
ghost use Rattle.bep_machine.specs.Replica.{version_of};
ghost use Rattle.bep_machine.specs.Local.{IsOverridable, IsMergedAndRaised, OverrideRow, ids_with, overriding};
ghost use Rattle.bep_folder.specs.Makes.{Makes, Stays, CountsFaults};
ghost use Rattle.bep_folder.specs.inner.Overriding.{Overrides, WinsOver};

use crate::beside::version_of;
use crate::deletion::deletion;
use crate::pull::merged;
use crate::scan::put_record;
use crate::{FolderError, Replica};
use bep_machine::Moved;
use bep_record::{DeviceId, FolderKind, Name, Record, Vector, Version};
use bep_store::Store;
use std::alloc::{AllocError, Global};

impl<S: Store> Replica<S> {
    /// Lets the own record win over the one that is chosen for the name, as a user of a send-only folder does; without
    /// an own record, a deletion wins. It is put as the device's change under both versions merged, with the device's
    /// counter raised.
    ///
    /// Refuses, in this order, `KindForbids` where the folder isn't send only, `NothingToDo` where no record is chosen
    /// that the own one is behind and differs from, `CounterFull` and `TooManyCounters` where the version can't be made,
    /// and `SequenceFull` and `IndexFull` where the index has no room. Else only want of memory is answered. After an
    /// error the folder is as before.
    ///
    /// Syncthing, 'Folder Types', in this project's profile.
    pub fn override_one(&mut self, name: &Name) -> Result<Moved, FolderError>
        ensures overridden { Makes (OverrideRow self.old.device name.now) self.old self.new result }
        ensures stays { Stays self.old self.new }
        ensures counted { CountsFaults self.old self.new result }
        ensures uncopied { self.new.trace.copied ≡ false }
        ensures uncalled { self.new.made ≡ 0 }
    {
        let made = self.overriding_record(name);
        self.store.begin();
        let entry = match made {
            Ok(entry) => entry,
            Err(error) => return Err(error),
        };
        put_record(&mut self.index, entry)?;
        Ok(Moved::Changed)
    }

    // The record that wins over the chosen one, if the folder is send only.
    fn overriding_record(&self, name: &Name) -> Result<Record, FolderError>
        ensures made { Overrides self.now.device name.now self.now.tables result }
        ensures named { IfOk result (λ entry. entry.name ≡ name.now) }
    {
        if self.kind != FolderKind::SendOnly {
            return Err(FolderError::KindForbids);
        }
        let Some(chosen) = self.chosen(name) else {
            return Err(FolderError::NothingToDo);
        };
        let own = self.index.get(name);
        if !is_overridable(own, chosen) {
            return Err(FolderError::NothingToDo);
        }
        winning(self.alloc, self.device, name, own, chosen)
    }
}

// The record that wins over the chosen one, or why its version can't be made.
fn winning(
    alloc: Global,
    device: DeviceId,
    name: &Name,
    own: Option<&Record>,
    chosen: &Record,
) -> Result<Record, FolderError>
    ensures { WinsOver device name.now (option_copied own.entry) chosen.now result }
{
    let version = merged_and_raised(device, own, chosen)?;
    Ok(overriding(alloc, device, name, own, chosen, version)?)
}

// Whether the own record is behind the chosen one and differs from it; without one, whether there is something to
// delete.
pub(crate) fn is_overridable(own: Option<&Record>, chosen: &Record) -> bool
    ensures { IsTrue result ↔ IsOverridable (option_copied own.entry) chosen.now }
{
    match own {
        None => !chosen.entry().deleted,
        Some(own) => {
            !chosen.entry().version.is_at_most(&own.entry().version) && !chosen.same_content(own)
        }
    }
}

// The greatest value of a counter.
const GREATEST_COUNTER: u64 = 9_223_372_036_854_775_807;

// Whether one of the two versions has the device's counter at its greatest value.
fn is_counter_full(device: DeviceId, own: Option<&Record>, chosen: &Record) -> bool
    ensures { IsTrue result ↔ (max (counter_of (version_of (option_copied own.entry)) device) (counter_of chosen.now.version device) ≡ greatest_counter) }
{
    let own = version_of(own).get(device);
    own.max(chosen.entry().version.get(device)) == GREATEST_COUNTER
}

// Both versions merged, and then the device's counter raised. Refuses `CounterFull` where one of the two has the
// device's counter at its greatest value, and then `TooManyCounters` where more than 16 devices would have one.
pub(crate) fn merged_and_raised(
    device: DeviceId,
    own: Option<&Record>,
    chosen: &Record,
) -> Result<Vector, FolderError>
    ensures ok { IfOk result (IsMergedAndRaised device (version_of (option_copied own.entry)) chosen.now.version) }
    ensures full { IsErrOf result FolderError.CounterFull ↔ (max (counter_of (version_of (option_copied own.entry)) device) (counter_of chosen.now.version device) ≡ greatest_counter) }
    ensures many { IsErrOf result FolderError.TooManyCounters
        ↔ ((¬ (max (counter_of (version_of (option_copied own.entry)) device) (counter_of chosen.now.version device) ≡ greatest_counter)) × (most_counters < ids_with device (version_of (option_copied own.entry)) chosen.now.version)) }
    ensures only { IfErr result (λ e. (e ≡ FolderError.CounterFull) ⊎ (e ≡ FolderError.TooManyCounters)) }
{
    if is_counter_full(device, own, chosen) {
        return Err(FolderError::CounterFull);
    }
    let mut version = merged(own, chosen)?;
    match version.bump(device) {
        Ok(()) => Ok(rising(version)),
        Err(_) => Err(FolderError::TooManyCounters),
    }
}

// The version, of which its type says that its ids rise.
fn rising(version: Vector) -> Vector
    ensures value { result ≡ version }
    ensures rises { IsVersion version }
{
    let _counters = version.counters();
    version
}

// The own record under the version, as the device's change; without one, a deletion of the chosen record's kind and
// time.
pub(crate) fn overriding(
    alloc: Global,
    device: DeviceId,
    name: &Name,
    own: Option<&Record>,
    chosen: &Record,
    version: Vector,
) -> Result<Record, AllocError>
    ensures { IfOk result (λ made. made ≡ overriding device name.now (option_copied own.entry) chosen.now version) }
{
    let Some(own) = own else {
        return deletion(alloc, device, name.copy(alloc)?, chosen, &version);
    };
    let mut entry = own.entry().copy(alloc)?;
    entry.modified_by = device;
    entry.version = Version::of(alloc, &version)?;
    Record::of(alloc, entry)
}
