//! A row beside a header: what is answered of it, and which row doesn't fit.
use bep_cut_document::read_cut;
use bep_record::{FolderName, Items, Name};
use bep_row::{DeviceCell, NameRow, cut_of, row_fits};
use bep_rows::{Aim, RowError, Standing, standing_beside, standing_of_row, standing_of_rows};
use bep_tables::Cut;
use std::alloc::Global;

// Device 1 has `b`, and device 2 nothing.
const HEADER: &str = r#"{"version":1,"cut":{"folders":[{"folder":"docs","devices":[
    {"device":1,"kind":"send-receive","index_id":1,"max":3,
    "own":[{"name":"b","type":1,"modified_s":9,"modified_by":1,"version":[[1,1]],"sequence":2}],
    "store":[{"name":"b","type":1,"modified_s":9}]},
    {"device":2,"kind":"send-receive","index_id":2,"max":3}]}]}}"#;

// Device 1 has `b`, and no other one shares the folder.
const ALONE: &str = r#"{"version":1,"cut":{"folders":[{"folder":"docs","devices":[
    {"device":1,"kind":"send-receive","index_id":1,"max":3,
    "own":[{"name":"b","type":1,"modified_s":9,"modified_by":1,"version":[[1,1]],"sequence":2}],
    "store":[{"name":"b","type":1,"modified_s":9}]}]}]}}"#;

// The row with the record and the node that device 1 has of `b`, under this name.
fn row_of(alloc: Global, header: &Cut, name: &[u8]) -> Option<NameRow> {
    let folder = FolderName::read(alloc, b"docs").ok()?;
    let held = Name::read(alloc, b"b").ok()?;
    let [share, ..] = header.shares(&folder) else {
        return None;
    };
    let mut records = Vec::new(alloc);
    records.push(share.own.get(&held)?.copy(alloc).ok()?).ok()?;
    let mut devices = Vec::new(alloc);
    let cell = DeviceCell {
        device: share.device,
        own: Some(0),
        node: Some(share.store.get(&held)?.copy(alloc).ok()?),
        views: Items::new(Vec::new(alloc)),
        pull: None,
    };
    devices.push(cell).ok()?;
    Some(NameRow {
        folder,
        name: Name::read(alloc, name).ok()?,
        records: Items::new(records),
        devices: Items::new(devices),
    })
}

// Which device lacks the record, 0 where the row doesn't fit, 99 at any other answer.
fn lacking(alloc: Global, header: &Cut, row: &NameRow) -> u64 {
    match standing_of_row(alloc, Aim::Settled, header, row) {
        Ok(Standing::Not(_, _, _, Some(device))) => device.number(),
        Ok(_) => 99,
        Err(RowError::Unfit) => 0,
        Err(_) => 99,
    }
}

fn answered(alloc: Global, name: &[u8]) -> Option<u64> {
    let (_, header) = read_cut(alloc, HEADER.as_bytes()).ok()?;
    let row = row_of(alloc, &header, name)?;
    Some(lacking(alloc, &header, &row))
}

// Whether a cut is made of the row.
fn is_made(alloc: Global) -> Option<bool> {
    let (_, header) = read_cut(alloc, HEADER.as_bytes()).ok()?;
    let row = row_of(alloc, &header, b"b")?;
    if !row_fits(&header, &row) {
        return None;
    }
    Some(cut_of(alloc, &header, &row).is_ok())
}

// Whether the row of `b` is firm beside this header.
fn is_met(alloc: Global, text: &str) -> Option<bool> {
    let (_, header) = read_cut(alloc, text.as_bytes()).ok()?;
    let row = row_of(alloc, &header, b"b")?;
    if !row_fits(&header, &row) {
        return None;
    }
    match standing_beside(alloc, Aim::Firm, &header, &row) {
        Ok(Standing::Met) => Some(true),
        Ok(_) => Some(false),
        Err(_) => None,
    }
}

// Which device lacks the record, where the row of `b` comes once, or 0 where it comes twice.
fn answered_together(alloc: Global, twice: bool) -> Option<u64> {
    let (_, header) = read_cut(alloc, HEADER.as_bytes()).ok()?;
    let mut rows = Vec::new(alloc);
    rows.push(row_of(alloc, &header, b"b")?).ok()?;
    if twice {
        rows.push(row_of(alloc, &header, b"b")?).ok()?;
    }
    match standing_of_rows(alloc, Aim::Settled, &header, rows.as_slice()) {
        Ok(Standing::Not(_, _, _, Some(device))) => Some(device.number()),
        Ok(_) => None,
        Err(RowError::OutOfOrder) => Some(0),
        Err(_) => None,
    }
}

#[test]
fn lists_of_rows_are_answered(rt: HostRuntime) {
    assert_eq!(rt; answered_together(rt.alloc(), false), Some(2));
    assert_eq!(rt; answered_together(rt.alloc(), true), Some(0));
}

#[test]
fn rows_are_answered(rt: HostRuntime) {
    assert_eq!(rt; is_made(rt.alloc()), Some(true));
    assert_eq!(rt; answered(rt.alloc(), b"b"), Some(2));
}

#[test]
fn rows_that_are_plain_are_met(rt: HostRuntime) {
    assert_eq!(rt; is_met(rt.alloc(), ALONE), Some(true));
    assert_eq!(rt; is_met(rt.alloc(), HEADER), Some(false));
}

#[test]
fn records_of_other_names_do_not_fit(rt: HostRuntime) {
    assert_eq!(rt; answered(rt.alloc(), b"a"), Some(0));
}
