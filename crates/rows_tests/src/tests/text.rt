//! A row's text beside a header of two devices, of which the first has a view of the other's index: for which fault it is refused,
//! 0 where it is read. The numbers were worked out by hand.
use bep_cut_document::read_cut;
use bep_document::DocError;
use bep_json::DocVersion;
use bep_record::{FolderName, Name};
use bep_row_document::read_row;
use bep_tree::Scratch;
use std::alloc::Global;

const HEADER: &str = r#"{"version":1,"cut":{"folders":[{"folder":"docs","devices":[
    {"device":1,"kind":"send-receive","index_id":1,"max":3,"views":[{"of":2,"index_id":2,"max":3,"records":[]}]},
    {"device":2,"kind":"send-receive","index_id":2,"max":3}]}]}}"#;

// The fault of the row behind one of this name, if there is any.
fn fault_behind(alloc: Global, last: &Option<(FolderName, Name)>, row: &str) -> Option<u32> {
    let (_, header) = read_cut(alloc, HEADER.as_bytes()).ok()?;
    match read_row(
        alloc,
        &mut Scratch::new(alloc),
        DocVersion::One,
        &header,
        last,
        row.as_bytes(),
    ) {
        Ok(_) => Some(0),
        Err(DocError::Refused(fault)) => Some(fault.fault.number()),
        Err(DocError::Memory) => None,
    }
}

fn fault(alloc: Global, row: &str) -> Option<u32> {
    fault_behind(alloc, &None, row)
}

fn fault_after(alloc: Global, name: &[u8], row: &str) -> Option<u32> {
    let folder = FolderName::read(alloc, b"docs").ok()?;
    let last = Some((folder, Name::read(alloc, name).ok()?));
    fault_behind(alloc, &last, row)
}

// Device 1 has its own record, its node, and a view of device 2 with the same record.
const WELL: &str =
    r#"["docs","b",[{"name":"b","type":1,"modified_s":9,"modified_by":1,"version":[[1,1]],"sequence":2}],[{"name":"b","type":1,"modified_s":9}],[[1,1,1,0,[[2,1]]]]]"#;

// The same record for these cells.
const BEFORE: &str =
    r#"["docs","b",[{"name":"b","type":1,"modified_s":9,"modified_by":1,"version":[[1,1]],"sequence":2}],[],"#;

// The fault of the row with this record and these cells.
fn of_cells(alloc: Global, cells: &str) -> Option<u32> {
    let mut text = String::from_str(alloc, BEFORE).ok()?;
    text.push_str(cells).ok()?;
    text.push_str("]").ok()?;
    fault(alloc, text.as_str())
}

#[test]
fn rows_are_read(rt: HostRuntime) {
    let alloc = rt.alloc();
    assert_eq!(rt; fault(alloc, WELL), Some(0));
    assert_eq!(rt; fault_after(alloc, b"a", WELL), Some(0));
    assert_eq!(rt; of_cells(alloc, "[[1,1,0,1,[]],[2,1,0,0,[]]]"), Some(0));
}

#[test]
fn texts_that_are_no_rows_are_refused(rt: HostRuntime) {
    let alloc = rt.alloc();
    assert_eq!(rt; fault(alloc, "["), Some(181));
    assert_eq!(rt; fault(alloc, ""), Some(181));
    assert_eq!(rt; fault(alloc, "{}"), Some(183));
    assert_eq!(rt; fault(alloc, r#"["docs","b",[],[]]"#), Some(183));
    assert_eq!(rt; of_cells(alloc, "[[1,1,0,0]]"), Some(183));
}

#[test]
fn places_beyond_the_lists_are_refused(rt: HostRuntime) {
    let alloc = rt.alloc();
    assert_eq!(rt; of_cells(alloc, "[[1,2,0,0,[]]]"), Some(184));
    assert_eq!(rt; of_cells(alloc, "[[1,1,1,0,[]]]"), Some(184));
    assert_eq!(rt; of_cells(alloc, "[[1,1,0,0,[[2,0]]]]"), Some(184));
    assert_eq!(rt; of_cells(alloc, "[[1,1,0,0,[[2,2]]]]"), Some(184));
}

#[test]
fn rows_that_say_nothing_are_refused(rt: HostRuntime) {
    let alloc = rt.alloc();
    assert_eq!(rt; of_cells(alloc, "[]"), Some(184));
    assert_eq!(rt; of_cells(alloc, "[[1,0,0,0,[]]]"), Some(184));
}

#[test]
fn what_stands_twice_is_refused(rt: HostRuntime) {
    let alloc = rt.alloc();
    assert_eq!(rt; fault_after(alloc, b"b", WELL), Some(185));
    assert_eq!(rt; fault_after(alloc, b"c", WELL), Some(185));
    assert_eq!(rt; of_cells(alloc, "[[1,1,0,0,[]],[1,1,0,0,[]]]"), Some(185));
    assert_eq!(rt; of_cells(alloc, "[[1,0,0,0,[[2,1],[2,1]]]]"), Some(185));
}

#[test]
fn what_the_header_has_not_is_refused(rt: HostRuntime) {
    let alloc = rt.alloc();
    assert_eq!(rt; of_cells(alloc, "[[3,1,0,0,[]]]"), Some(186));
    assert_eq!(rt; of_cells(alloc, "[[2,0,0,0,[[1,1]]]]"), Some(186));
    let other =
        r#"["other","b",[{"name":"b","type":1,"modified_s":9,"modified_by":1,"version":[[1,1]],"sequence":2}],[],[[1,1,0,0,[]]]]"#;
    assert_eq!(rt; fault(alloc, other), Some(186));
}

#[test]
fn records_and_nodes_of_other_names_are_refused(rt: HostRuntime) {
    let alloc = rt.alloc();
    let named =
        r#"["docs","a",[{"name":"b","type":1,"modified_s":9,"modified_by":1,"version":[[1,1]],"sequence":2}],[],[[1,1,0,0,[]]]]"#;
    assert_eq!(rt; fault(alloc, named), Some(187));
    let held = r#"["docs","a",[],[{"name":"b","type":1,"modified_s":9}],[[1,0,1,0,[]]]]"#;
    assert_eq!(rt; fault(alloc, held), Some(187));
    let invalid =
        r#"["docs","b",[{"name":"b","type":1,"modified_s":9,"modified_by":1,"version":[[1,1]],"sequence":2,"invalid":true}],[],[[1,1,0,1,[]]]]"#;
    assert_eq!(rt; fault(alloc, invalid), Some(187));
}
