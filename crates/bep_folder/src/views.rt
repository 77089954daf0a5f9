//! What the device takes of what others send of their indexes.
ghost use Rattle.std.specs.Prelude.{◌≡◌, ◌⊎◌, ◌↔◌, Contains, IfOk, IfErr, IsErrOf, IsTrue, OnErr, OnOk, Some, None};
ghost use Rattle.std.specs.FinMap as map;
ghost use Rattle.bep_index.specs.View.{IsOld, cleared, replaced, amended};
ghost use Rattle.bep_machine.specs.Replica.{view_of};
ghost use Rattle.bep_folder.specs.Views.{IsApart, IsTooMuch, known_view, unchanged, with_exchanged, with_viewed};

use crate::error::index_error;
use crate::{FolderError, Replica};
use bep_index::{Batch, View};
use bep_map::DeviceMap;
use bep_record::DeviceId;
use bep_store::Store;
use std::alloc::Global;

impl<S: Store> Replica<S> {
    /// Takes the batch in place of all that was known of the device's index, as an Index asks. Refuses `NotShared`
    /// exactly where the device isn't another one that shares the folder. After an error all is as before.
    ///
    /// BEP v1, 'Index'.
    pub fn replace_view(&mut self, device: DeviceId, batch: Batch) -> Result<(), FolderError>
        ensures ok { OnOk result (self.new ≡ with_viewed self.old device (replaced (view_of self.old.tables device) batch)) }

        ensures not_shared { IsErrOf result FolderError.NotShared ↔ IsApart self.old device }
        ensures only { IfErr result (λ e. (e ≡ FolderError.NotShared) ⊎ (e ≡ FolderError.Memory)) }
        ensures err { OnErr result (self.new ≡ unchanged self.old) }
    {
        if !self.begin_with(device) {
            return Err(FolderError::NotShared);
        }
        replace_in(&mut self.views, self.alloc, device, batch)
    }

    /// Adds the batch to what was known of the device's index, as an IndexUpdate asks. Refuses `NotShared` exactly where
    /// the device isn't another one that shares the folder, then `BatchOld` exactly where the batch's first sequence
    /// isn't above the view's, and then `IndexFull` exactly where the view would have more than 4096 names. After an
    /// error all is as before.
    ///
    /// BEP v1, 'Index Update'.
    pub fn amend_view(&mut self, device: DeviceId, batch: Batch) -> Result<(), FolderError>
        ensures ok { OnOk result (self.new ≡ with_viewed self.old device (amended (view_of self.old.tables device) batch)) }

        ensures not_shared { IsErrOf result FolderError.NotShared ↔ IsApart self.old device }
        ensures old { IsErrOf result FolderError.BatchOld ↔ ((¬ IsApart self.old device) × IsOld (view_of self.old.tables device).sequence batch) }
        ensures full { IsErrOf result FolderError.IndexFull ↔ ((¬ IsApart self.old device) × IsTooMuch (view_of self.old.tables device) batch) }
        ensures only { IfErr result (λ e. (e ≡ FolderError.NotShared) ⊎ (e ≡ FolderError.BatchOld) ⊎ (e ≡ FolderError.IndexFull) ⊎ (e ≡ FolderError.Memory)) }
        ensures err { OnErr result (self.new ≡ unchanged self.old) }
    {
        if !self.begin_with(device) {
            return Err(FolderError::NotShared);
        }
        amend_in(&mut self.views, self.alloc, device, batch)
    }

    /// Whether an IndexUpdate of the device with this batch can be taken, for those who then make a copy of it. Refuses what
    /// `amend_view` refuses, but never for want of memory. Nothing changes.
    ///
    /// BEP v1, 'Index Update'.
    pub fn may_amend(&mut self, device: DeviceId, batch: &Batch) -> Result<(), FolderError>
        ensures not_shared { IsErrOf result FolderError.NotShared ↔ IsApart self.old device }
        ensures old { IsErrOf result FolderError.BatchOld ↔ ((¬ IsApart self.old device) × IsOld (view_of self.old.tables device).sequence batch.now) }
        ensures full { IsErrOf result FolderError.IndexFull ↔ ((¬ IsApart self.old device) × IsTooMuch (view_of self.old.tables device) batch.now) }
        ensures only { IfErr result (λ e. (e ≡ FolderError.NotShared) ⊎ (e ≡ FolderError.BatchOld) ⊎ (e ≡ FolderError.IndexFull)) }
        ensures same { self.new ≡ unchanged self.old }
    {
        if !self.begin_with(device) {
            return Err(FolderError::NotShared);
        }
        may_amend_in(&self.views, self.alloc, device, batch)
    }

    /// Forgets all that was known of the device's index, and takes this index id with sequence 0. Refuses `NotShared`
    /// exactly where the device isn't another one that shares the folder. After an error all is as before.
    ///
    /// BEP v1, 'Fields (ClusterConfig)', field 'index_id'.
    pub fn clear_view(&mut self, device: DeviceId, id: u64) -> Result<(), FolderError>
        ensures ok { OnOk result (self.new ≡ with_viewed self.old device (cleared id)) }

        ensures not_shared { IsErrOf result FolderError.NotShared ↔ IsApart self.old device }
        ensures only { IfErr result (λ e. (e ≡ FolderError.NotShared) ⊎ (e ≡ FolderError.Memory)) }
        ensures err { OnErr result (self.new ≡ unchanged self.old) }
    {
        if !self.begin_with(device) {
            return Err(FolderError::NotShared);
        }
        let mut view = View::empty(self.alloc);
        view.clear(id);
        self.views.insert(device, view)?;
        Ok(())
    }

    /// What is known of the device's index becomes this, or nothing; answers what was known before. Refuses `NotShared`
    /// exactly where the device isn't another one that shares the folder. It takes memory only where the device gets its
    /// first view. After an error all is as before.
    ///
    /// This project's profile.
    pub fn exchange_view(
        &mut self,
        device: DeviceId,
        view: Option<View>,
    ) -> Result<Option<View>, FolderError>
        ensures before { IfOk result (λ before. before ≡ map.get self.old.tables.views device) }
        ensures ok { OnOk result (self.new ≡ with_exchanged self.old device view) }
        ensures not_shared { IsErrOf result FolderError.NotShared ↔ IsApart self.old device }
        ensures only { IfErr result (λ e. (e ≡ FolderError.NotShared) ⊎ ((e ≡ FolderError.Memory) × (map.get self.old.tables.views device ≡ None))) }
        ensures err { OnErr result (self.new ≡ unchanged self.old) }
    {
        if !self.begin_with(device) {
            return Err(FolderError::NotShared);
        }
        match view {
            Some(view) => put_view(&mut self.views, device, view),
            None => Ok(self.views.remove(device)),
        }
    }

    // Begins a call that is about the device, and tells whether it is another one that shares the folder.
    fn begin_with(&mut self, device: DeviceId) -> bool
        ensures begun { self.new ≡ unchanged self.old }
        ensures shared { IsTrue result ↔ Contains self.old.tables.others device }
    {
        self.store.begin();
        self.others.as_slice().contains(&device)
    }
}

// Gives the device this view, and answers the one that it had.
fn put_view(
    views: &mut DeviceMap<View>,
    device: DeviceId,
    view: View,
) -> Result<Option<View>, FolderError>
    ensures before { IfOk result (λ before. before ≡ map.get views.old device) }
    ensures ok { OnOk result (views.new ≡ map.insert views.old device view) }
    ensures only { IfErr result (λ e. (e ≡ FolderError.Memory) × (map.get views.old device ≡ None)) }
    ensures err { OnErr result (views.new ≡ views.old) }
{
    match views.replace(device, view) {
        Ok(before) => Ok(Some(before)),
        Err(view) => {
            let _none = views.insert(device, view)?;
            Ok(None)
        }
    }
}

fn replace_in(
    views: &mut DeviceMap<View>,
    alloc: Global,
    device: DeviceId,
    batch: Batch,
) -> Result<(), FolderError>
    ensures ok { OnOk result (views.new ≡ map.insert views.old device (replaced (known_view views.old device) batch)) }
    ensures only { IfErr result (λ e. e ≡ FolderError.Memory) }
    ensures err { OnErr result (views.new ≡ views.old) }
{
    let mut view = View::empty(alloc);
    view.clear(known_id(views, device));
    match view.replace(batch) {
        Ok(()) => {}
        Err(error) => return Err(index_error(error)),
    }
    views.insert(device, view)?;
    Ok(())
}

// The id of the index that is known of the device, 0 where none is.
fn known_id(views: &DeviceMap<View>, device: DeviceId) -> u64
    ensures { result ≡ (known_view views.now device).id }
{
    match views.get(device) {
        Some(view) => view.point().0,
        None => 0,
    }
}

// Whether the batch can be added to what is known of the device's index. It takes no memory.
fn may_amend_in(
    views: &DeviceMap<View>,
    alloc: Global,
    device: DeviceId,
    batch: &Batch,
) -> Result<(), FolderError>
    ensures old { IsErrOf result FolderError.BatchOld ↔ IsOld (known_view views.now device).sequence batch.now }
    ensures full { IsErrOf result FolderError.IndexFull ↔ IsTooMuch (known_view views.now device) batch.now }
    ensures only { IfErr result (λ e. (e ≡ FolderError.BatchOld) ⊎ (e ≡ FolderError.IndexFull)) }
{
    match views.get(device) {
        Some(view) => may_take(view, batch),
        None => may_take(&View::empty(alloc), batch),
    }
}

fn may_take(view: &View, batch: &Batch) -> Result<(), FolderError>
    ensures old { IsErrOf result FolderError.BatchOld ↔ IsOld view.now.sequence batch.now }
    ensures full { IsErrOf result FolderError.IndexFull ↔ IsTooMuch view.now batch.now }
    ensures only { IfErr result (λ e. (e ≡ FolderError.BatchOld) ⊎ (e ≡ FolderError.IndexFull)) }
{
    match view.sequence_with(batch) {
        Ok(_) => Ok(()),
        Err(error) => Err(index_error(error)),
    }
}

// While the view is changed, an empty one keeps its place, so that want of memory leaves what was known.
fn amend_in(
    views: &mut DeviceMap<View>,
    alloc: Global,
    device: DeviceId,
    batch: Batch,
) -> Result<(), FolderError>
    ensures ok { OnOk result (views.new ≡ map.insert views.old device (amended (known_view views.old device) batch)) }
    ensures old { IsErrOf result FolderError.BatchOld ↔ IsOld (known_view views.old device).sequence batch }
    ensures full { IsErrOf result FolderError.IndexFull ↔ IsTooMuch (known_view views.old device) batch }
    ensures only { IfErr result (λ e. (e ≡ FolderError.BatchOld) ⊎ (e ≡ FolderError.IndexFull) ⊎ (e ≡ FolderError.Memory)) }
    ensures err { OnErr result (views.new ≡ views.old) }
{
    match views.replace(device, View::empty(alloc)) {
        Ok(view) => amend_held(views, device, view, batch),
        Err(view) => amend_new(views, device, view, batch),
    }
}

// Gives the device its view with the batch, or as it was.
fn amend_held(
    views: &mut DeviceMap<View>,
    device: DeviceId,
    view: View,
    batch: Batch,
) -> Result<(), FolderError>
    requires { map.get views.old device ≡ Some (cleared 0) }
    ensures ok { OnOk result (views.new ≡ map.insert views.old device (amended view batch)) }
    ensures old { IsErrOf result FolderError.BatchOld ↔ IsOld view.sequence batch }
    ensures full { IsErrOf result FolderError.IndexFull ↔ IsTooMuch view batch }
    ensures only { IfErr result (λ e. (e ≡ FolderError.BatchOld) ⊎ (e ≡ FolderError.IndexFull) ⊎ (e ≡ FolderError.Memory)) }
    ensures err { OnErr result (views.new ≡ map.insert views.old device view) }
{
    let mut view = view;
    let answer = amend_one(&mut view, batch);
    let _empty = views.replace(device, view);
    answer
}

// Gives the device its first view, with the batch.
fn amend_new(
    views: &mut DeviceMap<View>,
    device: DeviceId,
    view: View,
    batch: Batch,
) -> Result<(), FolderError>
    ensures ok { OnOk result (views.new ≡ map.insert views.old device (amended view batch)) }
    ensures old { IsErrOf result FolderError.BatchOld ↔ IsOld view.sequence batch }
    ensures full { IsErrOf result FolderError.IndexFull ↔ IsTooMuch view batch }
    ensures only { IfErr result (λ e. (e ≡ FolderError.BatchOld) ⊎ (e ≡ FolderError.IndexFull) ⊎ (e ≡ FolderError.Memory)) }
    ensures err { OnErr result (views.new ≡ views.old) }
{
    let mut view = view;
    amend_one(&mut view, batch)?;
    views.insert(device, view)?;
    Ok(())
}

fn amend_one(view: &mut View, batch: Batch) -> Result<(), FolderError>
    ensures ok { OnOk result (view.new ≡ amended view.old batch) }
    ensures old { IsErrOf result FolderError.BatchOld ↔ IsOld view.old.sequence batch }
    ensures full { IsErrOf result FolderError.IndexFull ↔ IsTooMuch view.old batch }
    ensures only { IfErr result (λ e. (e ≡ FolderError.BatchOld) ⊎ (e ≡ FolderError.IndexFull) ⊎ (e ≡ FolderError.Memory)) }
    ensures err { OnErr result (view.new ≡ view.old) }
{
    match view.amend(batch) {
        Ok(()) => Ok(()),
        Err(error) => Err(index_error(error)),
    }
}
