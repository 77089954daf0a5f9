//! Three devices in a row that share `docs`, and what they hold.
use bep_config::Config;
use bep_core::{Cluster, Step};
use bep_record::{DeviceId, FolderKind, FolderName, Items, Kind, Name, Node, NodeParts, Target};
use bep_rounds::Wanted;
use bep_store::Store;
use std::alloc::Global;

/// The folder.
pub(crate) fn docs(alloc: Global) -> Option<FolderName> {
    FolderName::read(alloc, b"docs").ok()
}

/// The name.
pub(crate) fn photo(alloc: Global) -> Option<Name> {
    Name::read(alloc, b"photo").ok()
}

fn share<S: Store>(alloc: Global, config: &mut Config<S>, device: u64, store: S) -> Option<()> {
    let docs = docs(alloc)?;
    let id = DeviceId::read(device)?;
    config
        .add_device(&docs, id, FolderKind::SendReceive, device, store)
        .ok()
}

fn link<S: Store>(config: &mut Config<S>, lower: u64, upper: u64) -> Option<()> {
    config
        .add_link(DeviceId::read(lower)?, DeviceId::read(upper)?)
        .ok()
}

/// The cluster as it begins, over these stores.
pub(crate) fn cluster<S: Store>(
    alloc: Global,
    first: S,
    second: S,
    third: S,
) -> Option<Cluster<S>> {
    let mut config = Config::empty(alloc);
    config.add_folder(b"docs").ok()?;
    share(alloc, &mut config, 1, first)?;
    share(alloc, &mut config, 2, second)?;
    share(alloc, &mut config, 3, third)?;
    link(&mut config, 1, 2)?;
    link(&mut config, 1, 3)?;
    link(&mut config, 2, 3)?;
    Cluster::new(alloc, config).ok()
}

/// A file of so many bytes.
pub(crate) fn file(alloc: Global, size: usize) -> Option<Node> {
    let mut bytes = Vec::new(alloc);
    for place in 0..size {
        bytes.push((place / 131072 % 256) as u8).ok()?;
    }
    Node::read(NodeParts {
        kind: Kind::File,
        bytes: Items::new(bytes),
        target: Target::empty(alloc),
        modified_s: 1000,
        modified_ns: 0,
    })
    .ok()
}

/// The first device has the file, recorded.
pub(crate) fn put<S: Store>(alloc: Global, cluster: &mut Cluster<S>, size: usize) -> Option<()> {
    put_at(alloc, cluster, 1, b"photo", size)
}

/// It removes it.
pub(crate) fn remove<S: Store>(alloc: Global, cluster: &mut Cluster<S>) -> Option<()> {
    remove_at(alloc, cluster, 1, b"photo")
}

/// The device has a file of this name, recorded.
pub(crate) fn put_at<S: Store>(
    alloc: Global,
    cluster: &mut Cluster<S>,
    device: u64,
    name: &[u8],
    size: usize,
) -> Option<()> {
    let device = DeviceId::read(device)?;
    let node = file(alloc, size)?;
    let named = Name::read(alloc, name).ok()?;
    cluster
        .apply(Step::Edit(device, docs(alloc)?, named, node))
        .ok()?;
    scan(alloc, cluster, device, name)
}

/// The device removes the file of this name.
pub(crate) fn remove_at<S: Store>(
    alloc: Global,
    cluster: &mut Cluster<S>,
    device: u64,
    name: &[u8],
) -> Option<()> {
    let device = DeviceId::read(device)?;
    let named = Name::read(alloc, name).ok()?;
    cluster
        .apply(Step::Remove(device, docs(alloc)?, named))
        .ok()?;
    scan(alloc, cluster, device, name)
}

fn scan<S: Store>(
    alloc: Global,
    cluster: &mut Cluster<S>,
    device: DeviceId,
    name: &[u8],
) -> Option<()> {
    let named = Name::read(alloc, name).ok()?;
    cluster.apply(Step::Scan(device, docs(alloc)?, named)).ok()?;
    Some(())
}

/// The device is to be brought the name by the other one.
pub(crate) fn wanted(alloc: Global, device: u64, owner: u64) -> Option<Wanted> {
    Some(Wanted {
        device: DeviceId::read(device)?,
        owner: DeviceId::read(owner)?,
        folder: docs(alloc)?,
        name: photo(alloc)?,
    })
}

/// Of how many bytes the device's own record of the photo tells: the inner one is `None` where that is a deletion, and the outer one
/// where there is no record.
pub(crate) fn told<S: Store>(
    alloc: Global,
    cluster: &Cluster<S>,
    device: u64,
) -> Option<Option<u64>> {
    told_of(alloc, cluster, device, b"photo")
}

/// The same of this name.
pub(crate) fn told_of<S: Store>(
    alloc: Global,
    cluster: &Cluster<S>,
    device: u64,
    name: &[u8],
) -> Option<Option<u64>> {
    let (docs, name) = (docs(alloc)?, Name::read(alloc, name).ok()?);
    let replica = cluster.peer(DeviceId::read(device)?)?.replica(&docs)?;
    let entry = replica.index().get(&name)?.entry();
    if entry.deleted {
        return Some(None);
    }
    Some(Some(entry.size))
}
