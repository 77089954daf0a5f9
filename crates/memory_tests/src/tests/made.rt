//! What the calls are handed: names, records, nodes, and the documents of a cut and of a scenario.
use bep_blocks::blocks;
use bep_index::Batch;
use bep_record::{
    BASE_BLOCK_SIZE, BlockSize, DeviceId, Entry, FolderName, Items, Kind, Name, Node, NodeParts,
    Record, Target, Version,
};
use std::alloc::Global;

/// A cut with all that one has, and its certificate: device 2 sees, awaits and pulls a newer version of `a` than it has, and
/// device 1 sees and awaits it.
pub(crate) const CHECK: &str = r#"{"version":1,"cut":{"folders":[{"folder":"docs","devices":[
    {"device":1,"kind":"send-receive","index_id":11,"max":1,"own":[
    {"name":"a","type":1,"modified_s":9,"modified_by":1,"version":[[1,1]],"sequence":1}],
    "store":[{"name":"a","type":1,"modified_s":9}]},
    {"device":2,"kind":"send-receive","index_id":12,"max":1,"own":[
    {"name":"a","type":1,"modified_s":9,"modified_by":1,"version":[[1,1]],"sequence":1}],
    "store":[{"name":"a","type":1,"modified_s":9}],
    "views":[{"of":1,"index_id":11,"max":2,"records":[
    {"name":"a","type":0,"modified_s":9,"modified_by":1,"version":[[1,2]],"sequence":2,"size":5,"blocks":[
    "2cf24dba5fb0a30e26e83b2ac5b9e29e1b161e5c1fa7425e73043362938b9824"]}]}],
    "pulls":[{"name":"a","type":4,"target":"b","modified_s":9,"modified_by":1,"version":[[1,2]],"sequence":2}]}]}],
    "links":[{"a":1,"b":2,"up":true,"epoch":1,"to_a":[],"to_b":[{"folder":"docs","full":false,"records":[
    {"name":"a","type":1,"modified_s":9,"modified_by":1,"version":[[1,3]],"sequence":3}]}]}]},
    "certificate":[{"folder":"docs","device":1,"record":
    {"name":"a","type":1,"modified_s":9,"modified_by":1,"version":[[1,1]],"sequence":1}}]}"#;

/// A scenario: device 1 puts a file, scans it and meets device 2.
pub(crate) const SCENARIO: &str = r#"{"version":1,"folders":[{"folder":"docs","devices":[
    {"device":1,"kind":"send-receive","index_id":11},{"device":2,"kind":"send-receive","index_id":12}]}],
    "links":[[1,2]],"steps":[["edit",1,"docs",{"name":"a","type":0,"modified_s":9,"text":"hello"}],
    ["scan",1,"docs","a"],["connect",1,2],["begin",1,2]]}"#;

/// The folder.
pub(crate) fn docs(alloc: Global) -> Option<FolderName> {
    FolderName::read(alloc, b"docs").ok()
}

/// The name.
pub(crate) fn name(alloc: Global) -> Option<Name> {
    Name::of_text(alloc, "a").ok()
}

/// The bytes of the file.
pub(crate) const HELLO: &[u8] = b"hello";

/// The file of these bytes.
pub(crate) fn parts(alloc: Global) -> Option<NodeParts> {
    Some(NodeParts {
        kind: Kind::File,
        bytes: Items::new(Vec::from_slice(alloc, HELLO).ok()?),
        target: Target::empty(alloc),
        modified_s: 9,
        modified_ns: 0,
    })
}

/// The same, as a node.
pub(crate) fn node(alloc: Global) -> Option<Node> {
    Node::read(parts(alloc)?).ok()
}

/// The fields of device 1's record of that file, under this sequence.
pub(crate) fn entry(alloc: Global, sequence: u64) -> Option<Entry> {
    let modified_by = DeviceId::read(1)?;
    let version = Version::read(alloc, &[(1, 1)]).ok()??;
    Some(Entry {
        name: name(alloc)?,
        kind: Kind::File,
        size: HELLO.len() as u64,
        modified_s: 9,
        modified_ns: 0,
        modified_by,
        deleted: false,
        invalid: false,
        no_permissions: true,
        version,
        sequence,
        block_size: BASE_BLOCK_SIZE,
        blocks: blocks(alloc, HELLO, BlockSize::base()).ok()?,
        target: Target::empty(alloc),
    })
}

/// That record.
pub(crate) fn record(alloc: Global, sequence: u64) -> Option<Record> {
    Record::read(alloc, entry(alloc, sequence)?).ok()?
}

/// A batch of that record alone.
pub(crate) fn batch(alloc: Global, sequence: u64) -> Option<Batch> {
    let records = Vec::from_array(alloc, [record(alloc, sequence)?]).ok()?;
    Batch::new(records).ok()
}
