//! A cut as a tree by itself, and a fault's copy. What is read and refused, and all else that is written, `tests/` shows.
use bep_cut_document::{CutValue, DocVersion};
use bep_document::{DocError, DocFault, read_parts};
use bep_tables::Cut;
use serde_json::Value;
use std::alloc::Global;

// Each member, as it is written.
const WRITTEN: &str =
    r#"{"folders":[{"devices":[{"device":2,"index_id":12,"kind":"send-receive","max":0,"own":[],"pulls":[],"store":[{"hex":"0a","modified_ns":8,"modified_s":5,"name":"c","target":"","type":0}],"views":[]}],"folder":"docs"}],"links":[]}"#;

// Whether the cut's tree is this one.
fn is_written(alloc: Global, cut: &Cut, tree: &Value) -> bool {
    match cut.to_value(alloc) {
        Ok(written) => written == *tree,
        Err(_) => false,
    }
}

// Whether the cut that is read of the tree, as one of a document of this version, is written as the tree.
fn is_read(alloc: Global, version: DocVersion, tree: &Value) -> bool {
    match Cut::from_value(alloc, version, tree) {
        Ok(cut) => is_written(alloc, &cut, tree),
        Err(_) => false,
    }
}

fn is_written_again(alloc: Global) -> bool {
    match Value::from_str(alloc, WRITTEN) {
        Ok(tree) => {
            is_read(alloc, DocVersion::One, &tree) && is_read(alloc, DocVersion::Two, &tree)
        }
        Err(_) => false,
    }
}

#[test]
fn a_cut_is_written_again(rt: HostRuntime) {
    assert!(rt; is_written_again(rt.alloc()));
}

// A directory that stands twice in a store.
const TWICE: &str = r#"{"version":1,"cut":{"folders":[{"folder":"docs","devices":[
    {"device":3,"kind":"send-only","index_id":11,"max":0,"store":[
    {"name":"a","type":1,"modified_s":0},{"name":"a","type":1,"modified_s":0}]}]}]},"certificate":[]}"#;

// The number and the device of the fault's copy.
fn copied(alloc: Global, fault: &DocFault) -> Option<(u32, u64)> {
    match fault.copy(alloc) {
        Ok(copy) => Some((copy.fault.number(), copy.device?.number())),
        Err(_) => None,
    }
}

// The same of the fault for which the document is refused.
fn refused(alloc: Global) -> Option<(u32, u64)> {
    match read_parts(alloc, TWICE.as_bytes()) {
        Err(DocError::Refused(fault)) => copied(alloc, &fault),
        _ => None,
    }
}

#[test]
fn a_fault_is_copied(rt: HostRuntime) {
    assert_eq!(rt; refused(rt.alloc()), Some((185, 3)));
}
