//! What the device wants: the record that it chooses, if it needs that one.
ghost use Rattle.std.specs.Prelude.{◌≡◌, ◌↔◌, Some, IfSome, IfNone, IfOk, OnOk, IsSome, IsTrue};
ghost use Rattle.std.specs.Option.{option_copied};
ghost use Rattle.std.specs.FinMap as map;
ghost use Rattle.bep_record.specs.declared.entry.Entry.{Entry};
ghost use Rattle.bep_choice.specs.Need.{IsNeeded};
ghost use Rattle.bep_model.specs.Tables.{FileName};
ghost use Rattle.bep_machine.specs.Replica.{Wants, own_at};
ghost use Rattle.bep_folder.specs.Wanted.{IsWantedName};
ghost use Rattle.bep_folder.specs.inner.Wanted.{AddsWanted, IsRecorded, IsViewedOf};

use crate::Replica;
use bep_choice::needed;
use bep_index::View;
use bep_map::NameMap;
use bep_record::{DeviceId, Name, Record};
use bep_store::Store;
use std::alloc::{AllocError, Global};

impl<S: Store> Replica<S> {
    // The record that the device wants of the name: it chooses this one, and needs it.
    pub(crate) fn wanted(&self, name: &Name) -> Option<&Record>
        ensures wanted { IfSome result (λ one. Wants self.now.device self.now.tables name.now one.now) }
        ensures only { (one : Entry) → Wants self.now.device self.now.tables name.now one → option_copied result ≡ Some one }
        ensures none { IfNone result ((one : Entry) → ¬ Wants self.now.device self.now.tables name.now one) }
    {
        let Some(chosen) = self.chosen(name) else {
            return None;
        };
        if !self.needs(name, chosen) {
            return None;
        }
        Some(chosen)
    }

    // Whether the device would need the record if it chose it.
    pub(crate) fn needs(&self, name: &Name, chosen: &Record) -> bool
        ensures { IsTrue result ↔ IsNeeded self.now.tables.kind (own_at self.now.tables name.now) chosen.now }
    {
        needed(self.kind, self.index.get(name), chosen)
    }

    /// The names of which the device wants a record, or want of memory.
    pub fn wanted_names(&self) -> Result<NameMap<()>, AllocError>
        ensures { IfOk result (λ names. (name : FileName) → IsSome (map.get names name) ↔ IsWantedName self.now.device self.now.tables name) }
    {
        let mut names = NameMap::new(self.alloc);
        let others = self.others.as_slice();
        for other in others {
            self.add_viewed(&mut names, self.alloc, *other)?;
        }
        Ok(names)
    }

    // Adds the names that the other device is known to have and of which the device wants a record.
    fn add_viewed(
        &self,
        names: &mut NameMap<()>,
        alloc: Global,
        other: DeviceId,
    ) -> Result<(), AllocError>
        ensures { OnOk result (AddsWanted self.now.device self.now.tables names.old names.new (IsViewedOf self.now.tables.views other)) }
    {
        match self.views.get(other) {
            Some(view) => self.add_records(names, alloc, view),
            None => Ok(()),
        }
    }

    // Adds the view's names of which the device wants a record.
    fn add_records(
        &self,
        names: &mut NameMap<()>,
        alloc: Global,
        view: &View,
    ) -> Result<(), AllocError>
        ensures { OnOk result (AddsWanted self.now.device self.now.tables names.old names.new (IsRecorded view.now.records)) }
    {
        for entry in view.records() {
            self.add_wanted(names, alloc, &entry.entry().name)?;
        }
        Ok(())
    }

    // Adds the name, if the device wants a record of it.
    fn add_wanted(
        &self,
        names: &mut NameMap<()>,
        alloc: Global,
        name: &Name,
    ) -> Result<(), AllocError>
        ensures { OnOk result (AddsWanted self.now.device self.now.tables names.old names.new (λ other. other ≡ name.now)) }
    {
        if names.contains(name) || self.wanted(name).is_none() {
            return Ok(());
        }
        names.insert(name.copy(alloc)?, ())?;
        Ok(())
    }
}
