//! The cluster behind its locks.
ghost use Rattle.std.specs.Prelude.{◌≡◌, ◌≢◌, ◌⊎◌, ◌↔◌, ◌++◌, [], All, IfErr, IfOk, IsTrue, OnErr, OnOk, Some, length, map};
ghost use Rattle.std.specs.Coded.{Coded-set, coded_list};
ghost use Rattle.std.specs.FinMap.{keys};
ghost use Rattle.atomic_table.specs.Seated.{table_id_coded};
ghost use Rattle.bep_cut.specs.Cut.{seen};
ghost use Rattle.bep_fit.specs.contracts.object.Object as object_row;
ghost use Rattle.bep_fit.specs.declared.object.Object.TheVariants as objects;
ghost use Rattle.bep_history.specs.Chair.{IsNamed, named_or};
ghost use Rattle.bep_log.specs.declared.error.LogError.TheVariants.{Refused};
ghost use Rattle.bep_machine.specs.declared.refusal.Refusal.TheVariants.{NotShared};
ghost use Rattle.bep_run.specs.inner.Kept.{IsAbout, IsFirstSeat, IsSeated, objects_in, objects_of_links, objects_of_peers};
ghost use Rattle.bep_run.specs.inner.Looking.{AreEnds};
ghost use Rattle.bep_run.specs.Origin.{BeginsAs, IsAll, at_place, count_of, devices_in, links_in};
ghost use Rattle.bep_run.specs.Why.{IsOfStores};

use crate::kept_link::KeptLink;
use crate::kept_peer::KeptPeer;
use crate::{Anywhere, Origin};
use bep_core::Cluster;
use bep_history::{Chair, History};
use bep_links::Link;
use bep_log::LogError;
use bep_machine::Refusal;
use bep_peer::Peer;
use bep_record::{DeviceId, FolderName, Items};
use bep_store::Store;
use std::alloc::{AllocError, Global};
use std::sync::{Mutex, Wait};

/// A cluster whose devices and links may be used by many threads at once: one lock round each device with its log, one
/// round each link with its log, and one history of tickets and events. Each lock keeps what is known of how its device or
/// link began, and then of its events, too: none is a local step or a reset, and they are those of the history that touch it.
///
/// A call takes the guards of the device that it names, then those of the links, by rising device and then rising link; it
/// draws its ticket under all of them. This project's profile.
pub struct Locked<S: Store, O: Origin> {
    pub(crate) devices: Vec<Held<S, O>>,
    pub(crate) links: Vec<Joint<O>>,
    pub(crate) history: History,
    pub(crate) alloc: Global,
    ghost all_devices: { count_of (devices_in O.start) (length devices.items) ≡ length devices.items },
    ghost all_links: { count_of (links_in O.start) (length links.items) ≡ length links.items },
    ghost named: { named_or O.table history.table.shared.table_id ≡ history.table.shared.table_id } by { Coded-set table_id_coded (named_or O.table history.table.shared.table_id) history.table.shared.table_id },
    ghost about: { named_or (objects_in O.start) history.table.shared.key.items ≡ history.table.shared.key.items } by { Coded-set (coded_list object_row.the_row.coded) (named_or (objects_in O.start) history.table.shared.key.items) history.table.shared.key.items },
}

/// A cluster behind locks of which nothing is known of how it began.
pub type Shared<S> = Locked<S, Anywhere>;

/// A device behind its lock, with what never changes of it.
pub(crate) struct Held<S: Store, O: Origin> {
    pub(crate) number: DeviceId,
    pub(crate) folders: Items<FolderName>,
    pub(crate) peer: Mutex<KeptPeer<S, O>>,
}

/// A link behind its lock, and the two devices at its ends, the smaller first.
pub(crate) struct Joint<O: Origin> {
    pub(crate) lower: DeviceId,
    pub(crate) upper: DeviceId,
    pub(crate) link: Mutex<KeptLink<O>>,
}

// By hand, as for the two below: a caller's proof then sees one call where it lets go of one, and not each field
// (docs/developing.md).
impl<S: Store, O: Origin> Drop for Locked<S, O> {
    fn drop(self) {
        let Locked {
            devices: _,
            links: _,
            history: _,
            alloc: _,
        } = self;
    }
}

impl<S: Store, O: Origin> Drop for Held<S, O> {
    fn drop(self) {
        let Held {
            number: _,
            folders: _,
            peer: _,
        } = self;
    }
}

impl<O: Origin> Drop for Joint<O> {
    fn drop(self) {
        let Joint {
            lower: _,
            upper: _,
            link: _,
        } = self;
    }
}

impl<S: Store> Locked<S, Anywhere> {
    /// The cluster behind locks: each log is empty, in round 0, and the first ticket is 1. The cluster is used up, after a
    /// refusal too. Refuses `StoreFault` where a store fails to list its names or to read one; else only for want of memory.
    pub fn new(alloc: Global, cluster: Cluster<S>) -> Result<Self, LogError>
        ensures only { IfErr result (IsOfStores S.faults) }
    {
        let (history, _place) = History::begin(alloc, &Vec::new(alloc))?;
        Locked::of(alloc, cluster, history, Chair::nobody())
    }

    // A ticket that nobody else draws.
    pub(crate) fn draw<R: Wait>(&self, rt: &R) -> u64 {
        self.history.draw(rt, &mut self.history.fresh())
    }
}

impl<S: Store, O: Origin> Locked<S, O> {
    // The cluster behind locks, with this history, if there is one, and the seat that owns all of its objects.
    #[tactic(auto, using(crate::proofs::Begins::parts_known))]
    pub(crate) fn of(
        alloc: Global,
        cluster: Cluster<S>,
        history: History,
        seat: Chair<O>,
    ) -> Result<Self, LogError>
        requires begins { BeginsAs O.start cluster }
        requires named { IsNamed O.table history.table.shared.table_id }
        requires about { IsAbout O.start history.table.shared.key.items }
        requires seat { IsFirstSeat O.table (objects_of_peers cluster.members ++ objects_of_links cluster.links) seat }
        ensures only { IfErr result (IsOfStores S.faults) }
    {
        let (peers, joining) = cluster.into_parts();
        let mut seat = seat;
        let devices = hold_all(alloc, &history, &mut seat, peers, joining.as_slice())?;
        let links = join_all(alloc, &history, &mut seat, joining)?;
        Ok(Locked {
            devices,
            links,
            history,
            alloc,
        })
    }

    // What it holds, for the cut with which it ends.
    pub(crate) fn into_parts(self) -> (Vec<Held<S, O>>, Vec<Joint<O>>, History)
        ensures devices { count_of (devices_in O.start) (length result.0.items) ≡ length result.0.items }
        ensures links { count_of (links_in O.start) (length result.1.items) ≡ length result.1.items }
        ensures named { IsNamed O.table result.2.table.shared.table_id }
        ensures about { IsAbout O.start result.2.table.shared.key.items }
    {
        let Locked {
            devices,
            links,
            history,
            alloc: _,
        } = self;
        (devices, links, history)
    }

    // The device of this number, or `NotShared`.
    pub(crate) fn device(&self, number: DeviceId) -> Result<&Held<S, O>, LogError>
        ensures found { IfOk result (λ held. held.now.number ≡ number) }
        ensures only { IfErr result (λ e. e ≡ Refused NotShared) }
        ensures missing { OnErr result (All (λ held. held.number ≢ number) self.now.devices.items) }
    {
        match self.devices.iter().find(|held| held.number == number) {
            Some(held) => Ok(held),
            None => Err(LogError::Refused(Refusal::NotShared)),
        }
    }

    // The link between the two devices, the smaller first, or `NotShared`.
    pub(crate) fn link(&self, lower: DeviceId, upper: DeviceId) -> Result<&Joint<O>, LogError>
        ensures found { IfOk result (λ joint. (joint.now.lower ≡ lower) × (joint.now.upper ≡ upper)) }
        ensures only { IfErr result (λ e. e ≡ Refused NotShared) }
    {
        match self
            .links
            .iter()
            .find(|joint| (joint.lower, joint.upper) == (lower, upper))
        {
            Some(joint) => Ok(joint),
            None => Err(LogError::Refused(Refusal::NotShared)),
        }
    }

    // The link between the two devices, in whichever order they are named, or `NotShared`.
    pub(crate) fn link_of(&self, device: DeviceId, other: DeviceId) -> Result<&Joint<O>, LogError>
        ensures found { IfOk result (λ joint. AreEnds joint.now.lower joint.now.upper device other) }
        ensures only { IfErr result (λ e. e ≡ Refused NotShared) }
    {
        if device < other {
            self.link(device, other)
        } else {
            self.link(other, device)
        }
    }
}

impl<S: Store, O: Origin> Held<S, O> {
    // The device itself.
    pub(crate) fn into_kept(self) -> KeptPeer<S, O> {
        let Held {
            number: _,
            folders: _,
            peer,
        } = self;
        peer.into_inner()
    }
}

impl<O: Origin> Joint<O> {
    // The link itself.
    pub(crate) fn into_kept(self) -> KeptLink<O> {
        let Joint {
            lower: _,
            upper: _,
            link,
        } = self;
        link.into_inner()
    }

    // Whether the device is at an end of the link.
    pub(crate) fn is_of(&self, device: DeviceId) -> bool
        ensures { IsTrue result ↔ (self.now.lower ≡ device) ⊎ (self.now.upper ≡ device) }
    {
        self.lower == device || self.upper == device
    }
}

// The devices behind their locks, each with its seat. The rows of these links are left.
#[tactic(auto, using(crate::proofs::Places::all_left, crate::proofs::Begins::next_seen, crate::proofs::Begins::fewer_seen, crate::proofs::Begins::none_seen, crate::proofs::FirstSeat::first_seated, crate::proofs::FirstSeat::others_left))]
fn hold_all<S: Store, O: Origin>(
    alloc: Global,
    history: &History,
    seat: &mut Chair<O>,
    peers: Vec<Peer<S>>,
    joining: &[Link],
) -> Result<Vec<Held<S, O>>, LogError>
    requires all { IsAll (devices_in O.start) (map seen peers.items) }
    requires named { IsNamed O.table history.now.table.shared.table_id }
    requires seat { IsFirstSeat O.table (objects_of_peers peers.items ++ objects_of_links joining.now) seat.old }
    ensures all { IfOk result (λ held. count_of (devices_in O.start) (length held.items) ≡ length held.items) }
    ensures seat { OnOk result (IsFirstSeat O.table (objects_of_links joining.now) seat.new) }
    ensures only { IfErr result (IsOfStores S.faults) }
{
    let mut devices = Vec::with_capacity(alloc, peers.len())?;
    for peer in peers {
        let own = seat.split(history);
        let held = hold(alloc, devices.len(), peer, own)?;
        devices.push(held)?;
    }
    Ok(devices)
}

// The links behind their locks, each with its seat.
#[tactic(auto, using(crate::proofs::Places::all_left, crate::proofs::Places::next_stands, crate::proofs::Places::fewer_left, crate::proofs::Places::none_left, crate::proofs::FirstSeat::first_seated, crate::proofs::FirstSeat::others_left))]
fn join_all<O: Origin>(
    alloc: Global,
    history: &History,
    seat: &mut Chair<O>,
    joining: Vec<Link>,
) -> Result<Vec<Joint<O>>, AllocError>
    requires all { IsAll (links_in O.start) joining.items }
    requires named { IsNamed O.table history.now.table.shared.table_id }
    requires seat { IsFirstSeat O.table (objects_of_links joining.items) seat.old }
    ensures { IfOk result (λ joined. count_of (links_in O.start) (length joined.items) ≡ length joined.items) }
{
    let mut links = Vec::with_capacity(alloc, joining.len())?;
    for link in joining {
        let own = seat.split(history);
        let joint = join(alloc, links.len(), link, own)?;
        links.push(joint)?;
    }
    Ok(links)
}

// The device, which stands at this place, behind its lock.
fn hold<S: Store, O: Origin>(
    alloc: Global,
    place: usize,
    peer: Peer<S>,
    seat: Chair<O>,
) -> Result<Held<S, O>, LogError>
    requires stands { at_place (devices_in O.start) place (seen peer) ≡ Some (seen peer) }
    requires seated { IsSeated O.table (objects.Device peer.number) 0 [] seat }
    ensures number { IfOk result (λ held. held.number ≡ peer.number) }
    ensures folders { IfOk result (λ held. held.folders ≡ keys peer.folders) }
    ensures only { IfErr result (IsOfStores S.faults) }
{
    let number = peer.number();
    let folders = folders_of(alloc, &peer)?;
    let peer = Mutex::new(KeptPeer::new(alloc, place, peer, seat)?);
    Ok(Held {
        number,
        folders,
        peer,
    })
}

// The link, which stands at this place, behind its lock.
fn join<O: Origin>(
    alloc: Global,
    place: usize,
    link: Link,
    seat: Chair<O>,
) -> Result<Joint<O>, AllocError>
    requires stands { at_place (links_in O.start) place link ≡ Some link }
    requires seated { IsSeated O.table (objects.Link link.ends.0 link.ends.1) 0 [] seat }
    ensures ends { IfOk result (λ joint. (joint.lower, joint.upper) ≡ link.ends) }
{
    let (lower, upper) = link.ends();
    let link = Mutex::new(KeptLink::new(alloc, place, link, seat)?);
    Ok(Joint { lower, upper, link })
}

// The names of the device's folders, rising.
fn folders_of<S: Store>(alloc: Global, peer: &Peer<S>) -> Result<Items<FolderName>, AllocError>
    ensures { IfOk result (λ names. names ≡ keys peer.now.folders) }
{
    let mut names = Vec::new(alloc);
    for (folder, _) in peer.folders().iter() {
        names.push(folder.copy(alloc)?)?;
    }
    Ok(Items::new(names))
}
