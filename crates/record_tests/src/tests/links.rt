//! A link's copy. What is on its way, in which order it arrives, and links that are lost or full, `tests/` shows.
use bep_links::Link;
use bep_record::DeviceId;
use std::alloc::Global;

// Whether the link's copy is up, and its epoch.
fn told_of_copy(alloc: Global, link: &Link) -> Option<(bool, u64)> {
    match link.copy(alloc) {
        Ok(copy) => Some((copy.is_up(), copy.epoch())),
        Err(_) => None,
    }
}

fn connected(alloc: Global) -> Option<(bool, u64)> {
    let mut link = Link::new(alloc, DeviceId::read(1)?, DeviceId::read(2)?)?;
    match link.connect() {
        Ok(()) => told_of_copy(alloc, &link),
        Err(_) => None,
    }
}

#[test]
fn a_link_is_copied(rt: HostRuntime) {
    assert_eq!(rt; connected(rt.alloc()), Some((true, 1)));
}
