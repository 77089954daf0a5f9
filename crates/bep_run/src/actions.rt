//! What a user does at a device, and what happens to links: each under its guards, and under a ticket of its own.
//!
//! Each call may wait. It refuses `NotShared` where the device, or the link, isn't there, and then what the call of `bep_log`
//! refuses that it makes.

use crate::kept_link::KeptLink;
use crate::{Anywhere, Locked, Origin};
use bep_index::IndexId;
use bep_log::LogError;
use bep_machine::Moved;
use bep_record::{DeviceId, FolderName, Name, Node};
use bep_store::Store;
use std::sync::{MutexGuard, Wait};

impl<S: Store, O: Origin> Locked<S, O> {
    /// The link between the two devices, the smaller first, comes up.
    pub fn connect<R: Wait>(
        &self,
        rt: &R,
        lower: DeviceId,
        upper: DeviceId,
    ) -> Result<(), LogError> {
        let mut link = self.link(lower, upper)?.link.lock(rt);
        link.connect(rt, &self.history)
    }

    /// The link between the two devices, the smaller first, goes down.
    pub fn lose<R: Wait>(&self, rt: &R, lower: DeviceId, upper: DeviceId) -> Result<(), LogError> {
        let mut link = self.link(lower, upper)?.link.lock(rt);
        link.lose(rt, &self.history)
    }

    // The guards of the device's links, rising.
    fn guards_of<R: Wait>(
        &self,
        rt: &R,
        device: DeviceId,
    ) -> Result<Vec<MutexGuard<'_, KeptLink<O>>>, LogError> {
        let mut guards = Vec::with_capacity(self.alloc, self.links.len())?;
        for joint in self.links.iter().filter(|joint| joint.is_of(device)) {
            guards.push(joint.link.lock(rt))?;
        }
        Ok(guards)
    }
}

// What no turn does: local steps, restarts and resets. Only where nothing is known of how a cluster began may they be made.
impl<S: Store> Locked<S, Anywhere> {
    /// The device starts again, and each of its links is lost, under one ticket and all of their guards. Where a part is
    /// refused, for want of memory or of room in its log, those before it were made all the same.
    pub fn restart<R: Wait>(&self, rt: &R, device: DeviceId) -> Result<(), LogError> {
        let mut guard = self.device(device)?.peer.lock(rt);
        let mut links = self.guards_of(rt, device)?;
        let ticket = self.draw(rt);
        let peer = &mut *guard;
        peer.logged.restart(ticket)?;
        for joined in links.iter_mut() {
            let link = &mut **joined;
            link.logged.restart(ticket, device)?;
        }
        Ok(())
    }

    /// Gives the name this node in the device's folder, as `LoggedPeer::edit` does.
    pub fn edit<R: Wait>(
        &self,
        rt: &R,
        device: DeviceId,
        folder: &FolderName,
        name: &Name,
        node: &Node,
    ) -> Result<Moved, LogError> {
        let mut guard = self.device(device)?.peer.lock(rt);
        let peer = &mut *guard;
        peer.logged.edit(self.draw(rt), folder, name, node)
    }

    /// Takes the name's node away in the device's folder, as `LoggedPeer::remove` does.
    pub fn remove<R: Wait>(
        &self,
        rt: &R,
        device: DeviceId,
        folder: &FolderName,
        name: &Name,
    ) -> Result<Moved, LogError> {
        let mut guard = self.device(device)?.peer.lock(rt);
        let peer = &mut *guard;
        peer.logged.remove(self.draw(rt), folder, name)
    }

    /// Lets the device's own record win, as `LoggedPeer::override_one` does.
    pub fn override_one<R: Wait>(
        &self,
        rt: &R,
        device: DeviceId,
        folder: &FolderName,
        name: &Name,
    ) -> Result<Moved, LogError> {
        let mut guard = self.device(device)?.peer.lock(rt);
        let peer = &mut *guard;
        peer.logged.override_one(self.draw(rt), folder, name)
    }

    /// Gives up the device's own change, as `LoggedPeer::revert_one` does.
    pub fn revert_one<R: Wait>(
        &self,
        rt: &R,
        device: DeviceId,
        folder: &FolderName,
        name: &Name,
    ) -> Result<Moved, LogError> {
        let mut guard = self.device(device)?.peer.lock(rt);
        let peer = &mut *guard;
        peer.logged.revert_one(self.draw(rt), folder, name)
    }

    /// The device starts over with empty indexes under this id, and each of its links is lost, under one ticket and all of
    /// their guards. The device's part is the first, and where it is refused, nothing was made: so it is for an id that isn't
    /// above that of each of its indexes. Where a link's part is refused, for want of memory or of room in its log, those
    /// before it were made all the same.
    pub fn reset<R: Wait>(&self, rt: &R, device: DeviceId, id: IndexId) -> Result<(), LogError> {
        let mut guard = self.device(device)?.peer.lock(rt);
        let mut links = self.guards_of(rt, device)?;
        let ticket = self.draw(rt);
        let peer = &mut *guard;
        peer.logged.reset(ticket, id)?;
        for joined in links.iter_mut() {
            let link = &mut **joined;
            link.logged.reset(ticket, device, id)?;
        }
        Ok(())
    }
}
