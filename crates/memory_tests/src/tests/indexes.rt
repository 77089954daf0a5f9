//! `bep_index`.
use super::made::{batch, name, record};
use bep_index::{Batch, Index, IndexId, MAX_RECORDS, View};
use std::alloc::Global;

fn indexes(alloc: Global) -> Option<bool> {
    let (name, id) = (name(alloc)?, IndexId::read(11)?);
    let index = Index::new(alloc, id);
    Some(index.must_have_room(&name).is_ok())
}

fn views(alloc: Global) -> Option<[bool; 2]> {
    let batch = batch(alloc, 1)?;
    let view = View::empty(alloc);
    Some([
        view.sequence_with(&batch).is_ok(),
        Batch::copy(&batch, alloc).is_ok(),
    ])
}

fn batches(alloc: Global) -> Option<bool> {
    let mut index = Index::new(alloc, IndexId::read(11)?);
    index.put(record(alloc, 1)?).ok()?;
    let Ok(found) = index.after(alloc, 0, MAX_RECORDS) else {
        return None;
    };
    let batch = Batch::of(found).ok()?;
    Some(Batch::to_items(&batch, alloc).is_ok())
}

#[test]
fn indexes_find_memory(rt: HostRuntime) {
    assert!(rt; indexes(rt.alloc()) == Some(true));
    assert!(rt; views(rt.alloc()) == Some([true; 2]));
    assert!(rt; batches(rt.alloc()) == Some(true));
}
