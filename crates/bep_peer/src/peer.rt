//! A device with its folders, its sessions and the devices with which it has links.
ghost use Rattle.std.specs.Prelude.{◌≡◌, ◌≢◌, ◌↔◌, ◌⊎◌, Some, None, IsSome, IfSome, IfNone, IsTrue, option_map};
ghost use Rattle.std.specs.Option.{option_copied};
ghost use Rattle.std.specs.FinMap as map;
ghost use Rattle.bep_store.specs.Sure.{NeverFails};
ghost use Rattle.bep_folder.specs.Held.{AreOthers};
ghost use Rattle.bep_peer.specs.Member.{AreOwn, new_member, nothing_told, untold};
ghost use Rattle.bep_peer.specs.Lent.{Joins};
ghost use Rattle.bep_machine.specs.Peer.{Session as SessionOf};
ghost use Rattle.bep_model.specs.Tables.{Device};

use crate::told::Told;
use crate::{Session, Trace};
use bep_folder::{Replica, are_others};
use bep_links::Link;
use bep_map::{DeviceMap, FolderMap};
use bep_record::{DeviceId, FolderName, Items};
use bep_store::Store;
use std::alloc::Global;
use std::marker::Model;

/// A device of a cluster: its folders, its sessions with other devices, and which devices it has links with.
///
/// BEP v1, 'Cluster Config'; sessions are this project's profile.
pub struct Peer<S: Store> {
    pub(crate) number: DeviceId,
    pub(crate) folders: FolderMap<Replica<S>>,
    pub(crate) sessions: DeviceMap<Session>,
    pub(crate) linked: Items<DeviceId>,
    pub(crate) trace: Told<S>,
    pub(crate) alloc: Global,
}

// By hand: a caller's proof then sees one call where it lets go of one, and not each field (docs/developing.md).
impl<S: Store> Drop for Peer<S> {
    fn drop(self) {
        let Peer {
            number: _,
            folders: _,
            sessions: _,
            linked: _,
            trace: _,
            alloc: _,
        } = self;
    }
}

impl<S: Store> Model for Peer<S> {
    ghost use Rattle.bep_record.specs.contracts.folder_kind.FolderKind as folder_kind;
    ghost use Rattle.bep_record.specs.contracts.entry.Entry as entry;
    ghost use Rattle.bep_record.specs.contracts.node.NodeParts as parts;
    ghost use Rattle.bep_index.specs.contracts.send.Plan as plan;
    ghost use Rattle.bep_machine.specs.contracts.message.Request as request;
    ghost use Rattle.bep_folder.specs.Held.{held_code};
    ghost use Rattle.bep_peer.specs.Session.{session_code};
    ghost use Rattle.bep_peer.specs.Member.{Member, member_code, IsMember};
    ghost use Rattle.bep_peer.specs.contracts.trace.Trace as trace_row;

    ghost Value = { Member };

    ghost coded = { member_code (held_code folder_kind.the_row.coded entry.the_row.coded parts.the_row.coded) (session_code plan.the_row.coded request.the_row.coded) trace_row.the_row.coded };

    ghost view = { λ p. record { number = p.number; folders = p.folders; sessions = p.sessions; linked = p.linked; trace = p.trace } };

    ghost invariant = { λ p. IsMember p.number p.folders p.sessions p.linked };
}

impl<S: Store> Peer<S> {
    /// The device as it begins, with these folders and without sessions. `linked` are the devices with which it has links.
    /// None exactly where these don't rise, or the device is among them, or there are more than 15; or where a folder isn't
    /// the device's, or stands under another name. It takes no memory.
    pub fn new(
        alloc: Global,
        number: DeviceId,
        folders: FolderMap<Replica<S>>,
        linked: Vec<DeviceId>,
    ) -> Option<Self>
        ensures some { IsSome result ↔ (AreOthers number linked.items × AreOwn number folders) }
        ensures begun { IfSome result (λ made. made ≡ new_member number folders linked.items) }
    {
        if !are_others(number, linked.as_slice()) || !are_own(number, &folders) {
            return None;
        }
        Some(Peer {
            number,
            folders,
            sessions: DeviceMap::new(alloc),
            linked: Items::new(linked),
            trace: Told::nothing(),
            alloc,
        })
    }

    /// The device's number.
    pub fn number(&self) -> DeviceId
        ensures { result ≡ self.now.number }
    {
        self.number
    }

    /// The folders that the device shares, each as it has it.
    pub fn folders(&self) -> &FolderMap<Replica<S>>
        ensures value { result.now ≡ self.now.folders }
        ensures own { AreOwn self.now.number self.now.folders }
    {
        &self.folders
    }

    /// The folder as the device has it, if it shares it.
    pub fn replica(&self, folder: &FolderName) -> Option<&Replica<S>>
        ensures { option_copied result ≡ map.get self.now.folders folder.now }
    {
        self.folders.get(folder)
    }

    /// The other devices that share the folder, rising, if the device shares it.
    pub fn others(&self, folder: &FolderName) -> Option<&[DeviceId]>
        ensures value { option_map (λ others. others.now) result ≡ option_map (λ held. held.tables.others) (map.get self.now.folders folder.now) }
        ensures others { IfSome result (λ others. AreOthers self.now.number others.now) }
    {
        match self.folders.get(folder) {
            Some(replica) => Some(replica.others()),
            None => None,
        }
    }

    /// The devices with which it has links, rising.
    pub fn linked(&self) -> &[DeviceId]
        ensures value { result.now ≡ self.now.linked }
        ensures others { AreOthers self.now.number self.now.linked }
    {
        self.linked.as_slice()
    }

    /// The device's session with another one, if it began one since it started.
    pub fn session(&self, other: DeviceId) -> Option<&Session>
        ensures { option_copied result ≡ map.get self.now.sessions other }
    {
        self.sessions.get(other)
    }

    /// Which call of a folder's store failed in the last action, counted from 1, until the trace is taken. None did if
    /// no store of the kind ever fails.
    pub fn failed(&self) -> Option<u32>
        ensures value { result ≡ self.now.trace.failed }
        ensures sure { NeverFails S.faults → result ≡ None }
    {
        self.trace.failed()
    }

    /// What the last action did; it is told once.
    pub fn take_trace(&mut self) -> Trace
        ensures value { result ≡ self.old.trace }
        ensures taken { self.new ≡ record self.old { trace = nothing_told } }
    {
        self.trace.take()
    }

    // An action begins: nothing is told yet.
    pub(crate) fn tell_nothing(&mut self)
        ensures { self.new ≡ untold self.old }
    {
        self.trace.tell_of((None, false));
    }

    // The other end of the link, if it is one of the device's.
    pub(crate) fn across(&self, link: &Link) -> Option<DeviceId>
        ensures some { IfSome result (Joins (record { member = self.now; link = link.now })) }
        ensures none { IfNone result ((other : Device) → ¬ Joins (record { member = self.now; link = link.now }) other) }
    {
        let other = other_end(link.ends(), self.number)?;
        if !self.linked.as_slice().contains(&other) {
            return None;
        }
        Some(other)
    }

    // The session with the other device, if it is of the link's epoch.
    pub(crate) fn current(&self, link: &Link, other: DeviceId) -> Option<&Session>
        ensures some { IfSome result (λ session. (map.get self.now.sessions other ≡ Some session.now) × (session.now.epoch ≡ link.now.link.epoch)) }
        ensures none { IfNone result ((session : SessionOf) → map.get self.now.sessions other ≡ Some session → session.epoch ≢ link.now.link.epoch) }
    {
        let session = self.sessions.get(other)?;
        if session.epoch() != link.epoch() {
            return None;
        }
        Some(session)
    }
}

// Whether each folder is the device's, and stands under its own name.
fn are_own<S: Store>(number: DeviceId, folders: &FolderMap<Replica<S>>) -> bool
    ensures { IsTrue result ↔ AreOwn number folders.now }
{
    for (folder, replica) in folders.iter() {
        if !is_own(number, folder, replica) {
            return false;
        }
    }
    true
}

// Whether the folder is the device's, under this name.
fn is_own<S: Store>(number: DeviceId, folder: &FolderName, replica: &Replica<S>) -> bool
    ensures { IsTrue result ↔ ((replica.now.device ≡ number) × (replica.now.folder ≡ folder.now)) }
{
    replica.device() == number && *replica.folder() == *folder
}

// The end of the two that isn't the device's, if the device is at one.
fn other_end(ends: (DeviceId, DeviceId), device: DeviceId) -> Option<DeviceId>
    ensures some { IfSome result (λ other. (ends ≡ (device, other)) ⊎ (ends ≡ (other, device))) }
    ensures first { ends.0 ≡ device → result ≡ Some ends.1 }
    ensures none { IfNone result ((ends.0 ≢ device) × (ends.1 ≢ device)) }
{
    let (lower, upper) = ends;
    if lower == device {
        Some(upper)
    } else if upper == device {
        Some(lower)
    } else {
        None
    }
}
