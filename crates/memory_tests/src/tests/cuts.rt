//! `bep_model`, `bep_tables`, `bep_cut_document` and `bep_audit`.
use super::made::{CHECK, docs, record};
use bep_audit::{certify_grouped, winners};
use bep_cut_document::{CutValue, DocVersion, check_document, read_check, read_cut};
use bep_model::Row;
use bep_record::DeviceId;
use bep_tables::{Cut, Table};
use std::alloc::Global;

fn rows(alloc: Global) -> Option<bool> {
    let (folder, record) = (docs(alloc)?, record(alloc, 1)?);
    let row = Row::of(alloc, &folder, DeviceId::read(1)?, &record).ok()?;
    Some(Row::copy(&row, alloc).is_ok())
}

fn documents(alloc: Global) -> Option<[bool; 2]> {
    let (cut, rows) = read_check(alloc, CHECK.as_bytes()).ok()?;
    Some([
        cut.to_value(alloc).is_ok(),
        check_document(alloc, DocVersion::One, &cut, rows.as_slice()).is_ok(),
    ])
}

fn tables(alloc: Global) -> Option<[bool; 3]> {
    let (_, cut) = read_cut(alloc, CHECK.as_bytes()).ok()?;
    let folder = docs(alloc)?;
    let table = Table::of(alloc, &cut).ok()?;
    Some([
        Cut::known_names(&cut, alloc, &folder).is_ok(),
        winners(alloc, &cut).is_ok(),
        certify_grouped(alloc, &cut, &table).is_ok(),
    ])
}

#[test]
fn cuts_find_memory(rt: HostRuntime) {
    let alloc = rt.alloc();
    assert!(rt; rows(alloc) == Some(true));
    assert!(rt; documents(alloc) == Some([true; 2]));
    assert!(rt; tables(alloc) == Some([true; 3]));
}
