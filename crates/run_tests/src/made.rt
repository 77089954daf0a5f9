//! Devices 1 and 2 that share `docs`, and their link.
use bep_config::Config;
use bep_core::Cluster;
use bep_machine::Step;
use bep_record::{DeviceId, FolderKind, FolderName, Items, Kind, Name, Node, NodeParts, Target};
use bep_run::Shared;
use bep_store::{FaultStore, MemStore, Store};
use std::alloc::Global;

/// The device of this number, which isn't 0.
pub(crate) fn device(number: u64) -> Option<DeviceId> {
    DeviceId::read(number)
}

/// The folder.
pub(crate) fn docs(alloc: Global) -> Option<FolderName> {
    FolderName::read(alloc, b"docs").ok()
}

/// The folder that only the cluster with the other kinds has.
pub(crate) fn music(alloc: Global) -> Option<FolderName> {
    FolderName::read(alloc, b"music").ok()
}

/// The name of the one file.
pub(crate) fn hello(alloc: Global) -> Option<Name> {
    Name::read(alloc, b"hello").ok()
}

/// A file of so many bytes.
pub(crate) fn file(alloc: Global, len: usize) -> Option<Node> {
    let bytes = vec![in alloc; 7u8; len].ok()?;
    let parts = NodeParts {
        kind: Kind::File,
        bytes: Items::new(bytes),
        target: Target::empty(alloc),
        modified_s: 1000,
        modified_ns: 0,
    };
    Node::read(parts).ok()
}

// Adds the folder to the two devices, in these kinds and with these stores.
fn share<S: Store>(
    config: &mut Config<S>,
    folder: &FolderName,
    kinds: [FolderKind; 2],
    first: S,
    second: S,
) -> Option<()> {
    let [one, two] = kinds;
    config.add_folder(folder.as_bytes()).ok()?;
    config.add_device(folder, device(1)?, one, 11, first).ok()?;
    config.add_device(folder, device(2)?, two, 12, second).ok()
}

// The cluster of the configuration and the link.
fn linked<S: Store>(alloc: Global, mut config: Config<S>) -> Option<Cluster<S>> {
    config.add_link(device(1)?, device(2)?).ok()?;
    Cluster::new(alloc, config).ok()
}

const BOTH: [FolderKind; 2] = [FolderKind::SendReceive, FolderKind::SendReceive];

/// The cluster as it begins: nothing is recorded, and the link is down.
pub(crate) fn cluster(alloc: Global) -> Option<Cluster<MemStore>> {
    let (first, second) = (MemStore::new(alloc), MemStore::new(alloc));
    let mut config = Config::empty(alloc);
    share(&mut config, &docs(alloc)?, BOTH, first, second)?;
    linked(alloc, config)
}

/// The same, where these calls of the stores of devices 1 and 2 fail, or none for 0.
pub(crate) fn failing(alloc: Global, calls: [u64; 2]) -> Option<Cluster<FaultStore<MemStore>>> {
    let [one, two] = calls;
    let first = FaultStore::new(MemStore::new(alloc), one);
    let second = FaultStore::new(MemStore::new(alloc), two);
    let mut config = Config::empty(alloc);
    share(&mut config, &docs(alloc)?, BOTH, first, second)?;
    linked(alloc, config)
}

/// The links of three devices, each with each, and in a row.
pub(crate) const RING: [(u64, u64); 3] = [(1, 2), (1, 3), (2, 3)];

pub(crate) const ROW: [(u64, u64); 2] = [(1, 2), (2, 3)];

// Devices 1, 2 and 3 that share the folder, over these stores, and these links.
fn joined<S: Store>(alloc: Global, stores: [S; 3], links: &[(u64, u64)]) -> Option<Cluster<S>> {
    let docs = docs(alloc)?;
    let both = FolderKind::SendReceive;
    let [one, two, three] = stores;
    let mut config = Config::empty(alloc);
    config.add_folder(docs.as_bytes()).ok()?;
    config.add_device(&docs, device(1)?, both, 11, one).ok()?;
    config.add_device(&docs, device(2)?, both, 12, two).ok()?;
    config.add_device(&docs, device(3)?, both, 13, three).ok()?;
    for (lower, upper) in links {
        config.add_link(device(*lower)?, device(*upper)?).ok()?;
    }
    Cluster::new(alloc, config).ok()
}

/// Devices 1, 2 and 3 behind their locks, with these links, all down.
pub(crate) fn three(alloc: Global, links: &[(u64, u64)]) -> Option<Shared<MemStore>> {
    let stores = [
        MemStore::new(alloc),
        MemStore::new(alloc),
        MemStore::new(alloc),
    ];
    Shared::new(alloc, joined(alloc, stores, links)?).ok()
}

/// The same with each link, where these calls of the stores fail, or none for 0.
pub(crate) fn three_failing(
    alloc: Global,
    calls: [u64; 3],
) -> Option<Shared<FaultStore<MemStore>>> {
    let [one, two, three] = calls;
    let stores = [
        FaultStore::new(MemStore::new(alloc), one),
        FaultStore::new(MemStore::new(alloc), two),
        FaultStore::new(MemStore::new(alloc), three),
    ];
    Shared::new(alloc, joined(alloc, stores, &RING)?).ok()
}

/// The cluster with the other kinds: device 1 only sends `docs`, and device 2 only receives `music`.
pub(crate) fn other_kinds(alloc: Global) -> Option<Cluster<MemStore>> {
    let sends = [FolderKind::SendOnly, FolderKind::SendReceive];
    let receives = [FolderKind::SendReceive, FolderKind::ReceiveOnly];
    let (first, second) = (MemStore::new(alloc), MemStore::new(alloc));
    let (third, fourth) = (MemStore::new(alloc), MemStore::new(alloc));
    let mut config = Config::empty(alloc);
    share(&mut config, &docs(alloc)?, sends, first, second)?;
    share(&mut config, &music(alloc)?, receives, third, fourth)?;
    linked(alloc, config)
}

/// The cluster as it begins, behind its locks.
pub(crate) fn shared(alloc: Global) -> Option<Shared<MemStore>> {
    Shared::new(alloc, cluster(alloc)?).ok()
}

/// The cluster behind its locks, the link up, with a file at device 1 that no scan has seen, and a message on its way to it.
pub(crate) fn with_file_and_message(alloc: Global) -> Option<Shared<MemStore>> {
    let (one, two) = (device(1)?, device(2)?);
    let mut cluster = cluster(alloc)?;
    let edit = Step::Edit(one, docs(alloc)?, hello(alloc)?, file(alloc, 3)?);
    cluster.apply(edit).ok()?;
    cluster.apply(Step::Connect(one, two)).ok()?;
    cluster.apply(Step::Begin(two, one)).ok()?;
    Shared::new(alloc, cluster).ok()
}
