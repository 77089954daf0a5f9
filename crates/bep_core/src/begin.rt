//! The devices and the links of a cluster, as they begin.
ghost use Rattle.std.specs.Prelude.{◌≡◌, ◌≤◌, map, length, Contains, IfOk};
ghost use Rattle.std.specs.List.Sorted.{IsStrictlyIncreasing, IsStrictlySortedBy};
ghost use Rattle.bep_record.specs.declared.limits.TheConstants.{MAX_DEVICES};
ghost use Rattle.bep_config.specs.Config.{by_ends};
ghost use Rattle.bep_model.specs.Tables.{Device};
ghost use Rattle.bep_folder.specs.Held.{AreOthers};
ghost use Rattle.bep_links.specs.Link.{new_link};
ghost use Rattle.bep_peer.specs.Member.{AreOwn, new_member};
ghost use Rattle.bep_core.specs.Begin.{folders_at, linked_with};

use crate::folders::take_folders;
use crate::others::linked_with;
use bep_config::Config;
use bep_folder::Replica;
use bep_links::Link;
use bep_map::{DeviceMap, FolderMap};
use bep_peer::Peer;
use bep_record::DeviceId;
use bep_store::Store;
use std::alloc::{AllocError, Global};
use std::collections::BTreeSet;

// The links, which are down.
pub(crate) fn links_of<S>(alloc: Global, config: &Config<S>) -> Result<Vec<Link>, AllocError>
    ensures value { IfOk result (λ made. made.items ≡ map (λ ends. new_link ends.0 ends.1) config.now.links) }
    ensures rising { IsStrictlySortedBy by_ends config.now.links }
{
    let mut made = Vec::new(alloc);
    for (lower, upper) in config.links() {
        match Link::new(alloc, *lower, *upper) {
            Some(link) => made.push(link)?,
            None => unreachable!(),
        }
    }
    Ok(made)
}

// The device, with its folders and the devices with which it has links.
fn begin_peer<S: Store>(
    alloc: Global,
    device: DeviceId,
    folders: FolderMap<Replica<S>>,
    linked: Vec<DeviceId>,
) -> Peer<S>
    requires others { AreOthers device linked.items }
    requires own { AreOwn device folders }
    ensures { result ≡ new_member device folders linked.items }
{
    match Peer::new(alloc, device, folders, linked) {
        Some(peer) => peer,
        None => unreachable!(),
    }
}

// The devices, each with its folders.
pub(crate) fn peers_of<S: Store>(
    alloc: Global,
    numbers: &[DeviceId],
    devices: BTreeSet<DeviceId>,
    links: &BTreeSet<(DeviceId, DeviceId)>,
    folders: DeviceMap<FolderMap<Replica<S>>>,
) -> Result<Vec<Peer<S>>, AllocError>
    requires rising { IsStrictlyIncreasing numbers.now }
    requires few { length numbers.now ≤ MAX_DEVICES }
    requires all { devices.keys ≡ numbers.now }
    requires own { (device : Device) → AreOwn device (folders_at folders device) }
    ensures { IfOk result (λ made. made.items ≡ map (λ device. new_member device (folders_at folders device) (linked_with numbers.now links.now.keys device)) numbers.now) }
{
    let mut left = folders;
    let mut rest = devices;
    let mut made = Vec::new(alloc);
    while let Some(device) = rest.pop_first() {
        let held = take_folders(alloc, &mut left, device);
        let linked = linked_with(alloc, numbers, links, device)?;
        made.push(begin_peer(alloc, device, held, linked))?;
    }
    Ok(made)
}
