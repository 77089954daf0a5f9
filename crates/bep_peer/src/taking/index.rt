//! Taking what the other device sends of its index.
ghost use Rattle.std.specs.Prelude.{◌≡◌, ◌↔◌, ◌<◌, Bool, Some, Contains, IsTrue, IfOk, IfErr, OnErr};
ghost use Rattle.std.specs.FinMap as map;
ghost use Rattle.bep_folder.specs.Held.{Held};
ghost use Rattle.bep_folder.specs.Unhidden.{RefusesNone};
ghost use Rattle.bep_folder.specs.Views.{unchanged, with_viewed};
ghost use Rattle.bep_index.specs.Batch.{with_all};
ghost use Rattle.bep_index.specs.declared.limits.TheConstants.{MAX_NAMES};
ghost use Rattle.bep_index.specs.View.{IsOld, replaced, amended};
ghost use Rattle.bep_machine.specs.Exchange.{MessageRow};
ghost use Rattle.bep_machine.specs.Peer.{Session as SessionOf};
ghost use Rattle.bep_machine.specs.Replica.{view_of};
ghost use Rattle.bep_machine.specs.declared.message.Message.TheVariants as messages;
ghost use Rattle.bep_peer.specs.inner.Effect.{SendsNone, Takes};
ghost use Rattle.bep_peer.specs.Member.{Remains, nothing_told, tables_of};
ghost use Rattle.bep_peer.specs.Unhidden.{GoesOn};
ghost use Rattle.bep_peer.specs.inner.Index.{AmendsView, HasTooMany, IsSharedBy, TakesInView};
ghost use Rattle.bep_peer.specs.declared.taking.effect.Effect.TheVariants.{Taken};

use crate::taking::effect::Effect;
use crate::{Peer, PeerError};
use bep_folder::{FolderError, Replica};
use bep_index::{Batch, MAX_NAMES};
use bep_machine::Refusal;
use bep_map::FolderMap;
use bep_record::{DeviceId, FolderName};
use bep_store::Store;
use std::alloc::Global;

impl<S: Store> Peer<S> {
    // Takes an Index. A folder that the session doesn't name breaks the protocol.
    pub(crate) fn take_index(
        &mut self,
        other: DeviceId,
        folder: &FolderName,
        batch: &Batch,
    ) -> Result<Effect, PeerError>
        requires untold { self.old.trace ≡ nothing_told }
        ensures step { (full : Bool) (session : SessionOf) → map.get self.old.sessions other ≡ Some session → Takes (MessageRow other self.new.trace.failed full session (messages.Index folder.now batch.now) (tables_of self.old)) self.old self.new result }
        ensures unhidden { GoesOn result → (full : Bool) (session : SessionOf) → map.get self.old.sessions other ≡ Some session → RefusesNone (MessageRow other self.new.trace.failed full session (messages.Index folder.now batch.now) (tables_of self.old)) }
        ensures rest { Remains self.old self.new }
        ensures told { self.new.trace ≡ nothing_told }
        ensures silent { IfOk result SendsNone }
        ensures err { OnErr result (tables_of self.new ≡ tables_of self.old) }
    {
        if !self.is_named(other, folder) {
            return Ok(Effect::Lost);
        }
        if has_many_names(batch) {
            return Err(PeerError::Refused(Refusal::IndexFull));
        }
        let batch = batch.copy(self.alloc)?;
        replace_view(&mut self.folders, folder, other, batch)
    }

    // Takes an IndexUpdate. A folder that the session doesn't name breaks the protocol, and so does an update that doesn't
    // begin above what is known. Refuses `IndexFull` where too many names would be known.
    pub(crate) fn take_update(
        &mut self,
        other: DeviceId,
        folder: &FolderName,
        batch: &Batch,
    ) -> Result<Effect, PeerError>
        requires untold { self.old.trace ≡ nothing_told }
        ensures step { (full : Bool) (session : SessionOf) → map.get self.old.sessions other ≡ Some session → Takes (MessageRow other self.new.trace.failed full session (messages.IndexUpdate folder.now batch.now) (tables_of self.old)) self.old self.new result }
        ensures unhidden { GoesOn result → (full : Bool) (session : SessionOf) → map.get self.old.sessions other ≡ Some session → RefusesNone (MessageRow other self.new.trace.failed full session (messages.IndexUpdate folder.now batch.now) (tables_of self.old)) }
        ensures rest { Remains self.old self.new }
        ensures told { self.new.trace ≡ nothing_told }
        ensures silent { IfOk result SendsNone }
        ensures err { OnErr result (tables_of self.new ≡ tables_of self.old) }
    {
        if !self.is_named(other, folder) {
            return Ok(Effect::Lost);
        }
        amend_view(&mut self.folders, self.alloc, folder, other, batch)
    }
}

// Whether the batch has more names than a view may have. (No batch has: its own limit is lower.)
fn has_many_names(batch: &Batch) -> bool
    ensures { IsTrue result ↔ (MAX_NAMES < map.len (with_all map.empty batch.now)) }
{
    batch.as_slice().len() > MAX_NAMES
}

// The batch takes the place of all that was known of the other device's folder.
fn replace_view<S: Store>(
    folders: &mut FolderMap<Replica<S>>,
    folder: &FolderName,
    other: DeviceId,
    batch: Batch,
) -> Result<Effect, PeerError>
    requires shared { IsSharedBy folders.old folder.now other }
    requires few { ¬ (MAX_NAMES < map.len (with_all map.empty batch)) }
    ensures { (held : Held) → map.get folders.old folder.now ≡ Some held → TakesInView folder.now other held (λ view. ⊥) (λ view. replaced view batch) folders.old folders.new result }
{
    let Some(replica) = folders.get_mut(folder) else {
        unreachable!();
    };
    match replica.replace_view(other, batch) {
        Ok(()) => Ok(Effect::Taken),
        Err(FolderError::Memory) => Err(PeerError::Memory),
        Err(_) => unreachable!(),
    }
}

// The batch adds to what was known of the other device's folder.
fn amend_view<S: Store>(
    folders: &mut FolderMap<Replica<S>>,
    alloc: Global,
    folder: &FolderName,
    other: DeviceId,
    batch: &Batch,
) -> Result<Effect, PeerError>
    requires { IsSharedBy folders.old folder.now other }
    ensures { (held : Held) → map.get folders.old folder.now ≡ Some held → TakesInView folder.now other held (λ view. IsOld view.sequence batch.now) (λ view. amended view batch.now) folders.old folders.new result }
{
    let Some(replica) = folders.get_mut(folder) else {
        unreachable!();
    };
    amend(replica, alloc, other, batch)
}

// The batch adds to the view in the folder itself. What refuses the batch is tested before it is copied.
fn amend<S: Store>(
    replica: &mut Replica<S>,
    alloc: Global,
    other: DeviceId,
    batch: &Batch,
) -> Result<Effect, PeerError>
    requires { Contains replica.old.tables.others other }
    ensures { AmendsView other batch.now replica.old replica.new result }
{
    match replica.may_amend(other, batch) {
        Ok(()) => add_copy(replica, alloc, other, batch),
        Err(FolderError::BatchOld) => Ok(Effect::Lost),
        Err(FolderError::IndexFull) => Err(PeerError::Refused(Refusal::IndexFull)),
        Err(_) => unreachable!(),
    }
}

// Adds a copy of the batch, which nothing refuses.
fn add_copy<S: Store>(
    replica: &mut Replica<S>,
    alloc: Global,
    other: DeviceId,
    batch: &Batch,
) -> Result<Effect, PeerError>
    requires shared { Contains replica.old.tables.others other }
    requires new { ¬ IsOld (view_of replica.old.tables other).sequence batch.now }
    requires few { ¬ HasTooMany (amended (view_of replica.old.tables other) batch.now) }
    requires begun { replica.old ≡ unchanged replica.old }
    ensures ok { IfOk result (λ effect. (effect ≡ Taken) × (replica.new ≡ with_viewed replica.old other (amended (view_of replica.old.tables other) batch.now))) }
    ensures only { IfErr result (λ e. e ≡ PeerError.Memory) }
    ensures err { OnErr result (replica.new ≡ replica.old) }
{
    let batch = batch.copy(alloc)?;
    match replica.amend_view(other, batch) {
        Ok(()) => Ok(Effect::Taken),
        Err(FolderError::Memory) => Err(PeerError::Memory),
        Err(_) => unreachable!(),
    }
}
