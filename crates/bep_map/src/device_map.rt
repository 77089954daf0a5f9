//! A map from devices to values, over a `BTreeMap`.
ghost use Rattle.std.specs.Prelude.{◌≡◌, IfOk, IfErr, OnOk, OnErr, Some, None};
ghost use Rattle.std.specs.Option.{option_copied, option_copied_mut};
ghost use Rattle.std.specs.Borrow.{LendsIf, sem};
ghost use Rattle.std.specs.FinMap as map;
ghost use Rattle.bep_map.specs.contracts.device_map.DeviceMap.{the_row};

use bep_record::{DeviceId, Duplicate};
use std::alloc::{AllocError, Global};
use std::collections::BTreeMap;
use std::collections::btree_map::{Iter, Values};
use std::marker::Model;
use std::mem;

/// A finite map from devices to values of `V`. Two maps with the same values at the same devices are equal in contracts.
pub struct DeviceMap<V> {
    entries: BTreeMap<DeviceId, V>,
}

// By hand: a caller's proof then sees one call where it lets go of one, and not each field (docs/developing.md).
impl<V: Drop> Drop for DeviceMap<V> {
    fn drop(self) {
        let DeviceMap { entries: _ } = self;
    }
}

impl<V> Model for DeviceMap<V> {
    ghost use Rattle.std.specs.FinMap as map;
    ghost use Rattle.std.specs.Coded.{coded_ℕ};
    ghost use Rattle.std.specs.FinMap.{FinMap};
    ghost use Rattle.std.specs.Ordering.{nat_cmp};

    ghost Value = { FinMap nat_cmp V };

    ghost coded = { map.code coded_ℕ V.code };

    ghost view = { λ m. map.from_entries m.entries.entries };
}

impl<V> DeviceMap<V> {
    /// The map without devices.
    pub fn new(alloc: Global) -> Self
        ensures { result ≡ map.empty }
    {
        DeviceMap {
            entries: BTreeMap::new(alloc),
        }
    }

    /// The device's value, if it has one.
    pub fn get(&self, device: DeviceId) -> Option<&V>
        ensures { option_copied result ≡ map.get self.now device }
    {
        self.entries.get(&device)
    }

    /// The values, in the order of their devices.
    pub fn values(&self) -> Values<'_, DeviceId, V>
        ensures { result ≡ map.values self.now }
    {
        self.entries.values()
    }

    /// The device's value, if it has one, to be changed in place.
    pub fn get_mut(&mut self, device: DeviceId) -> Option<&mut V>
        ensures* writes_back { sem 𝓛 (LendsIf (the_row V.row) V.row self.entry result (λ value. map.insert self.old device value) self.old) }
        ensures value { option_copied_mut result ≡ map.get self.old device }
    {
        self.entries.get_mut(&device)
    }
}

impl<V: Drop> DeviceMap<V> {
    /// Gives the device this value, and answers the value that it had. Without memory the map is as before, and the
    /// value is used up.
    pub fn insert(&mut self, device: DeviceId, value: V) -> Result<Option<V>, AllocError>
        ensures old { IfOk result (λ old. old ≡ map.get self.old device) }
        ensures ok { OnOk result (self.new ≡ map.insert self.old device value) }
        ensures err { OnErr result (self.new ≡ self.old) }
    {
        Ok(self.entries.insert(device, value)?)
    }

    /// Gives the device this value in place of the one that it has, which is answered. A device without a value gets
    /// none, and the value comes back. Takes no memory.
    pub fn replace(&mut self, device: DeviceId, value: V) -> Result<V, V>
        ensures old { IfOk result (λ old. map.get self.old device ≡ Some old) }
        ensures ok { OnOk result (self.new ≡ map.insert self.old device value) }

        ensures absent { OnErr result (map.get self.old device ≡ None) }
        ensures back { IfErr result (λ same. same ≡ value) }
        ensures err { OnErr result (self.new ≡ self.old) }
    {
        let held = match self.entries.get_mut(&device) {
            Some(held) => held,
            None => return Err(value),
        };
        Ok(mem::replace(held, value))
    }

    /// Takes the device's value away and answers it. Takes no memory.
    pub fn remove(&mut self, device: DeviceId) -> Option<V>
        ensures old { result ≡ map.get self.old device }
        ensures removed { self.new ≡ map.remove self.old device }
    {
        self.entries.remove(&device)
    }
}

impl<V: Duplicate> DeviceMap<V> {
    /// An equal map of its own, or want of memory.
    pub fn copy(&self, alloc: Global) -> Result<Self, AllocError>
        ensures { IfOk result (λ made. made ≡ self.now) }
    {
        let mut made = DeviceMap::new(alloc);
        made.add_copies(alloc, self.entries.iter())?;
        Ok(made)
    }

    // Gives copies of these entries, from the last device to the first, as a map's view is made of its entries.
    fn add_copies(
        &mut self,
        alloc: Global,
        mut rest: Iter<'_, DeviceId, V>,
    ) -> Result<(), AllocError>
        requires { self.now ≡ map.empty }
        ensures { OnOk result (self.new ≡ map.from_entries rest.entry) }
    {
        while let Some((device, value)) = rest.next_back() {
            self.insert(*device, value.duplicate(alloc)?)?;
        }
        Ok(())
    }
}
