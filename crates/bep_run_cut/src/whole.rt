//! Whether copies of devices and links can be those of one cluster.
ghost use Rattle.std.specs.Prelude.{◌≡◌, ◌≤◌, ◌↔◌, ◌&&◌, IsTrue, IfOk, length, map};
ghost use Rattle.std.specs.FinMap.{keys};
ghost use Rattle.std.specs.List.{list_all};
ghost use Rattle.std.specs.Ordering.{is_lt};
ghost use Rattle.bep_model.specs.Tables.{Device};
ghost use Rattle.bep_cut.specs.Cut.{folders_of, seen};
ghost use Rattle.bep_peer.specs.network.Network.{in_order, is_between};
ghost use Rattle.bep_tables.specs.Cut.{ends_cmp};
ghost use Rattle.bep_run_cut.specs.inner.Tested.{all_agree, are_there, device_agrees, devices_rise, ends_after, folder_agrees, has, has_folder, is_known, is_named, is_one_of, is_there, knows, knows_link, links_rise, rise_after, sharing_agrees, shares_some};
ghost use Rattle.bep_record.specs.declared.limits.TheConstants.{MAX_DEVICES, MAX_FOLDERS};
ghost use Rattle.bep_run_cut.specs.declared.limits.TheConstants.{MAX_LINKS};
ghost use Rattle.bep_run_cut.specs.Whole.{AreWhole};

use crate::MAX_LINKS;
use bep_cut::folder_names;
use bep_links::Link;
use bep_map::FolderMap;
use bep_peer::Peer;
use bep_record::{DeviceId, FolderName, MAX_DEVICES, MAX_FOLDERS};
use bep_store::MemStore;
use std::alloc::{AllocError, Global};

// Whether these are one of each device and one of each link that the devices know, both rising, and the devices agree on who
// shares what; and there are no more than a cut can hold. Fails only for want of memory.
pub(crate) fn are_whole(
    alloc: Global,
    peers: &[Peer<MemStore>],
    links: &[Link],
) -> Result<bool, AllocError>
    ensures { IfOk result (λ yes. IsTrue yes ↔ AreWhole peers.now links.now) }
{
    let few = few_folders(alloc, peers)?;
    let named = few_objects(peers, links);
    let in_order = are_in_order(peers, links);
    let agree = all_agree(peers, links);
    Ok(all_hold(few, named, in_order, agree))
}

fn all_hold(few: bool, named: bool, in_order: bool, agree: bool) -> bool
    ensures { IsTrue result ↔ (IsTrue few × IsTrue named × IsTrue in_order × IsTrue agree) }
{
    few && named && in_order && agree
}

// Whether the devices have no more folders than a cut can hold, or want of memory.
fn few_folders(alloc: Global, peers: &[Peer<MemStore>]) -> Result<bool, AllocError>
    ensures { IfOk result (λ yes. IsTrue yes ↔ (length (folders_of (map seen peers.now)) ≤ MAX_FOLDERS)) }
{
    let names = folder_names(alloc, peers)?;
    Ok(count_of(&names) <= MAX_FOLDERS)
}

#[tactic(auto, using(crate::proofs::Counted::as_many))]
fn count_of(names: &FolderMap<()>) -> usize
    ensures { result ≡ length (keys names.now) }
{
    names.iter().count()
}

fn few_objects(peers: &[Peer<MemStore>], links: &[Link]) -> bool
    ensures { IsTrue result ↔ ((length peers.now ≤ MAX_DEVICES) × (length links.now ≤ MAX_LINKS)) }
{
    peers.len() <= MAX_DEVICES && links.len() <= MAX_LINKS
}

fn are_in_order(peers: &[Peer<MemStore>], links: &[Link]) -> bool
    ensures { result ≡ (devices_rise peers.now && links_rise links.now) }
{
    devices_rise(peers) && links_rise(links)
}

fn devices_rise(peers: &[Peer<MemStore>]) -> bool
    ensures { result ≡ devices_rise peers.now }
{
    match peers {
        [] => true,
        [first, ..] => rise_after(first.number(), &peers[1..]),
    }
}

fn rise_after(low: DeviceId, peers: &[Peer<MemStore>]) -> bool
    ensures { result ≡ rise_after low peers.now }
{
    let mut low = low;
    for peer in peers {
        if peer.number() <= low {
            return false;
        }
        low = peer.number();
    }
    true
}

fn links_rise(links: &[Link]) -> bool
    ensures { result ≡ links_rise links.now }
{
    match links {
        [] => true,
        [first, ..] => ends_after(first.ends(), &links[1..]),
    }
}

fn ends_after(low: (DeviceId, DeviceId), links: &[Link]) -> bool
    ensures { result ≡ ends_after low links.now }
{
    let mut low = low;
    for link in links {
        if !are_before(low, link.ends()) {
            return false;
        }
        low = link.ends();
    }
    true
}

fn are_before(one: (DeviceId, DeviceId), other: (DeviceId, DeviceId)) -> bool
    ensures { result ≡ is_lt (ends_cmp one other) }
{
    one.0.cmp(&other.0).then(one.1.cmp(&other.1)).is_lt()
}

// Whether the devices agree on who shares what, each shares some folder, and the links are those that they know.
fn all_agree(peers: &[Peer<MemStore>], links: &[Link]) -> bool
    ensures { result ≡ all_agree peers.now links.now }
{
    devices_agree(peers, links) && links_are_known(peers, links)
}

fn devices_agree(peers: &[Peer<MemStore>], links: &[Link]) -> bool
    ensures { result ≡ list_all (device_agrees peers.now links.now) peers.now }
{
    peers.iter().all(|peer| device_agrees(peers, links, peer))
}

fn links_are_known(peers: &[Peer<MemStore>], links: &[Link]) -> bool
    ensures { result ≡ list_all (is_known peers.now) links.now }
{
    links.iter().all(|link| is_known(peers, link))
}

fn device_agrees(peers: &[Peer<MemStore>], links: &[Link], peer: &Peer<MemStore>) -> bool
    ensures { result ≡ device_agrees peers.now links.now peer.now }
{
    shares_some(peer) && sharing_agrees(peers, peer) && are_there(links, peer)
}

fn shares_some(peer: &Peer<MemStore>) -> bool
    ensures { result ≡ shares_some peer.now }
{
    peer.folders().iter().next().is_some()
}

// Whether the device names, as the others that share each folder of its, those that have it.
fn sharing_agrees(peers: &[Peer<MemStore>], peer: &Peer<MemStore>) -> bool
    ensures { result ≡ sharing_agrees peers.now peer.now }
{
    peer.folders().iter().all(|(folder, replica)| {
        folder_agrees(peers, peer.number(), folder, replica.others())
    })
}

fn folder_agrees(
    peers: &[Peer<MemStore>],
    number: DeviceId,
    folder: &FolderName,
    others: &[DeviceId],
) -> bool
    ensures { result ≡ folder_agrees peers.now number folder.now others.now }
{
    !is_one_of(others, number)
        && all_have(peers, folder, others)
        && all_are_named(peers, number, folder, others)
}

// Whether those others have the folder.
fn all_have(peers: &[Peer<MemStore>], folder: &FolderName, others: &[DeviceId]) -> bool
    ensures { result ≡ list_all (λ (other : Device). has peers.now other folder.now) others.now }
{
    others.iter().all(|other| has(peers, *other, folder))
}

// Whether each device that has the folder is the device itself or among those others.
fn all_are_named(
    peers: &[Peer<MemStore>],
    number: DeviceId,
    folder: &FolderName,
    others: &[DeviceId],
) -> bool
    ensures { result ≡ list_all (is_named number folder.now others.now) peers.now }
{
    peers
        .iter()
        .all(|peer| is_named(number, folder, others, peer))
}

// Whether the device is there, and has the folder.
fn has(peers: &[Peer<MemStore>], device: DeviceId, folder: &FolderName) -> bool
    ensures { result ≡ has peers.now device folder.now }
{
    peers.iter().any(|peer| has_folder(device, folder, peer))
}

fn has_folder(device: DeviceId, folder: &FolderName, peer: &Peer<MemStore>) -> bool
    ensures { result ≡ has_folder device folder.now peer.now }
{
    peer.number() == device && peer.replica(folder).is_some()
}

// Whether the device is among those others, if it is another one and has the folder.
fn is_named(
    number: DeviceId,
    folder: &FolderName,
    others: &[DeviceId],
    peer: &Peer<MemStore>,
) -> bool
    ensures { result ≡ is_named number folder.now others.now peer.now }
{
    peer.number() == number || peer.replica(folder).is_none() || is_one_of(others, peer.number())
}

fn is_one_of(devices: &[DeviceId], device: DeviceId) -> bool
    ensures { result ≡ is_one_of devices.now device }
{
    devices.iter().any(|one| *one == device)
}

// Whether both its devices know the link.
fn is_known(peers: &[Peer<MemStore>], link: &Link) -> bool
    ensures { result ≡ is_known peers.now link.now }
{
    let (lower, upper) = link.ends();
    lower < upper && knows(peers, lower, upper) && knows(peers, upper, lower)
}

fn knows(peers: &[Peer<MemStore>], device: DeviceId, other: DeviceId) -> bool
    ensures { result ≡ knows peers.now device other }
{
    peers.iter().any(|peer| knows_link(device, other, peer))
}

fn knows_link(device: DeviceId, other: DeviceId, peer: &Peer<MemStore>) -> bool
    ensures { result ≡ knows_link device other peer.now }
{
    peer.number() == device && is_one_of(peer.linked(), other)
}

// Whether each link that the device knows is there.
fn are_there(links: &[Link], peer: &Peer<MemStore>) -> bool
    ensures { result ≡ are_there links.now peer.now }
{
    peer.linked()
        .iter()
        .all(|other| is_there(links, in_order(peer.number(), *other)))
}

fn is_there(links: &[Link], ends: (DeviceId, DeviceId)) -> bool
    ensures { result ≡ is_there links.now ends }
{
    links.iter().any(|link| is_between(link, ends))
}

fn is_between(link: &Link, ends: (DeviceId, DeviceId)) -> bool
    ensures { result ≡ is_between ends.0 ends.1 link.now }
{
    let (lower, upper) = link.ends();
    lower == ends.0 && upper == ends.1
}

// The two devices, the smaller first.
fn in_order(device: DeviceId, other: DeviceId) -> (DeviceId, DeviceId)
    ensures { result ≡ in_order device other }
{
    if device < other {
        (device, other)
    } else {
        (other, device)
    }
}
