//! Views, plans, changes that are taken back and what an index tells in the order of its sequences, by BEP v1, 'Index' and
//! 'Index Update'; the wanted answers were worked out by hand. How an index is full, and what a view has of its records, the
//! scenarios of `examples/` show.
use super::made::numbered;
use bep_index::{Batch, Index, IndexError, IndexId, Plan, View, plan};
use bep_record::{Name, Record};
use std::alloc::Global;

fn batch(alloc: Global, letter: u8, sequence: u64) -> Option<Batch> {
    let record = numbered(alloc, letter, sequence)?;
    let records = Vec::from_array(alloc, [record]).ok()?;
    Batch::new(records).ok()
}

// Begins the view with this one record.
fn begin(alloc: Global, view: &mut View, letter: u8, sequence: u64) -> Option<bool> {
    let batch = batch(alloc, letter, sequence)?;
    Some(view.replace(batch).is_ok())
}

// Why this one record isn't added to the view.
fn refusal(
    alloc: Global,
    view: &mut View,
    letter: u8,
    sequence: u64,
) -> Option<Option<IndexError>> {
    let batch = batch(alloc, letter, sequence)?;
    Some(view.amend(batch).err())
}

fn point_of_copy(alloc: Global, view: &View) -> Option<(u64, u64)> {
    match view.copy(alloc) {
        Ok(copy) => Some(copy.point()),
        Err(_) => None,
    }
}

fn has(alloc: Global, view: &View, letter: u8) -> Option<bool> {
    let name = Name::read(alloc, &[letter]).ok()?;
    Some(view.get(&name).is_some())
}

#[test]
fn a_view_takes_batches(rt: HostRuntime) {
    let alloc = rt.alloc();
    let mut view = View::empty(alloc);
    view.clear(11);
    assert_eq!(rt; begin(alloc, &mut view, b'c', 5), Some(true));
    assert_eq!(rt; refusal(alloc, &mut view, b'a', 7), Some(None));
    let old = Some(Some(IndexError::BatchOld));
    assert_eq!(rt; refusal(alloc, &mut view, b'b', 7), old);
    assert_eq!(rt; point_of_copy(alloc, &view), Some((11, 7)));
    assert_eq!(rt; has(alloc, &view, b'c'), Some(true));
    view.clear(12);
    assert_eq!(rt; view.point(), (12, 0));
    assert_eq!(rt; has(alloc, &view, b'c'), Some(false));
}

fn put(alloc: Global, index: &mut Index, letter: u8) -> Option<u64> {
    let record = numbered(alloc, letter, 1)?;
    index.put(record).ok()
}

// The index of `a`, which was put again, and `b`.
fn fill(alloc: Global, index: &mut Index) -> [Option<u64>; 3] {
    [
        put(alloc, index, b'a'),
        put(alloc, index, b'b'),
        put(alloc, index, b'a'),
    ]
}

fn plans(index: &Index) -> [Plan; 5] {
    [
        plan(index, 11, 3),
        plan(index, 11, 0),
        plan(index, 11, 4),
        plan(index, 12, 3),
        plan(index, 0, 0),
    ]
}

fn plans_of_copy(alloc: Global, index: &Index) -> Option<[Plan; 5]> {
    match index.copy(alloc) {
        Ok(copy) => Some(plans(&copy)),
        Err(_) => None,
    }
}

// The greatest sequence once this record is put; that is taken back then.
fn put_and_undo(alloc: Global, index: &mut Index, letter: u8) -> Option<u64> {
    let record = numbered(alloc, letter, 1)?;
    match index.put_undo(record) {
        Ok(undo) => {
            let sequence = index.max_sequence();
            index.undo(undo);
            Some(sequence)
        }
        Err(_) => None,
    }
}

// The letter and the sequence of a record.
type Told = Option<(u8, u64)>;

fn told(record: Option<&Record>) -> Told {
    let entry = record?.entry();
    let letter = *entry.name.as_bytes().first()?;
    Some((letter, entry.sequence))
}

// The index's records, in order, up to the fourth.
fn listed(index: &Index) -> [Told; 4] {
    [
        told(index.at(0)),
        told(index.at(1)),
        told(index.at(2)),
        told(index.at(3)),
    ]
}

// The records that are sent from above the sequence, up to the third.
fn sent(alloc: Global, index: &Index, sequence: u64, limit: usize) -> Option<[Told; 3]> {
    match index.after(alloc, sequence, limit) {
        Ok(found) => Some([told(found.get(0)), told(found.get(1)), told(found.get(2))]),
        Err(_) => None,
    }
}

fn places(index: &Index) -> [usize; 4] {
    [
        index.place_above(0),
        index.place_above(2),
        index.place_above(3),
        index.place_above(9),
    ]
}

#[test]
fn an_index_plans_and_takes_back(rt: HostRuntime) {
    let alloc = rt.alloc();
    let Some(id) = IndexId::read(11) else {
        return;
    };
    let mut index = Index::new(alloc, id);
    assert_eq!(rt; fill(alloc, &mut index), [Some(1), Some(2), Some(3)]);
    let wanted = [
        Plan::Above(3),
        Plan::Full,
        Plan::Full,
        Plan::Full,
        Plan::Full,
    ];
    assert_eq!(rt; plans_of_copy(alloc, &index), Some(wanted));
    // A change of a name that is there, and of a new one.
    assert_eq!(rt; put_and_undo(alloc, &mut index, b'b'), Some(4));
    assert_eq!(rt; put_and_undo(alloc, &mut index, b'c'), Some(4));
    let (b, a) = (Some((b'b', 2)), Some((b'a', 3)));
    assert_eq!(rt; listed(&index), [b, a, None, None]);
}

#[test]
fn an_index_tells_by_sequence(rt: HostRuntime) {
    let alloc = rt.alloc();
    let Some(id) = IndexId::read(11) else {
        return;
    };
    let mut index = Index::new(alloc, id);
    assert_eq!(rt; fill(alloc, &mut index), [Some(1), Some(2), Some(3)]);
    // The `a` that was put first isn't there any more.
    let (b, a) = (Some((b'b', 2)), Some((b'a', 3)));
    assert_eq!(rt; sent(alloc, &index, 0, 10), Some([b, a, None]));
    assert_eq!(rt; sent(alloc, &index, 0, 1), Some([b, None, None]));
    assert_eq!(rt; sent(alloc, &index, 2, 10), Some([a, None, None]));
    assert_eq!(rt; put(alloc, &mut index, b'c'), Some(4));
    assert_eq!(rt; places(&index), [0, 1, 2, 3]);
    assert_eq!(rt; listed(&index), [b, a, Some((b'c', 4)), None]);
}
