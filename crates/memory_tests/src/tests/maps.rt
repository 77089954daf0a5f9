//! `bep_map` and `bep_store`.
use super::made::{docs, name, node};
use bep_map::{DeviceMap, FolderMap, NameMap};
use bep_record::{DeviceId, Name, Node};
use bep_store::{MemStore, Store};
use std::alloc::Global;

fn by_device(alloc: Global) -> Option<[bool; 2]> {
    let (device, node) = (DeviceId::read(1)?, node(alloc)?);
    let mut devices: DeviceMap<Node> = DeviceMap::new(alloc);
    let put = devices.insert(device, node).is_ok();
    Some([put, devices.copy(alloc).is_ok()])
}

fn by_folder(alloc: Global) -> Option<[bool; 2]> {
    let (folder, node) = (docs(alloc)?, node(alloc)?);
    let mut folders: FolderMap<Node> = FolderMap::new(alloc);
    let put = folders.insert(folder, node).is_ok();
    Some([put, folders.copy(alloc).is_ok()])
}

fn by_name(alloc: Global) -> Option<[bool; 2]> {
    let (name, node) = (name(alloc)?, node(alloc)?);
    let mut names: NameMap<Node> = NameMap::new(alloc);
    let put = names.insert(name, node).is_ok();
    Some([put, names.copy(alloc).is_ok()])
}

// Whether the store writes the node, lists its names and reads it again.
fn called<S: Store>(alloc: Global, store: &mut S, name: &Name, node: &Node) -> [bool; 3] {
    [
        Store::write(store, name, node).is_ok(),
        Store::names(store, alloc).is_ok(),
        Store::read(store, alloc, name).is_ok(),
    ]
}

fn stored(alloc: Global) -> Option<(bool, [bool; 3])> {
    let (first, second) = (name(alloc)?, name(alloc)?);
    let (put, written) = (node(alloc)?, node(alloc)?);
    let mut store = MemStore::new(alloc);
    let is_put = store.put(first, put).is_ok();
    Some((is_put, called(alloc, &mut store, &second, &written)))
}

#[test]
fn maps_find_memory(rt: HostRuntime) {
    let alloc = rt.alloc();
    assert!(rt; by_device(alloc) == Some([true; 2]));
    assert!(rt; by_folder(alloc) == Some([true; 2]));
    assert!(rt; by_name(alloc) == Some([true; 2]));
    assert!(rt; stored(alloc) == Some((true, [true; 3])));
}
