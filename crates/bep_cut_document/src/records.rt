//! Records and nodes, made of what a document says of them.
ghost use Rattle.std.specs.Prelude.{◌≡◌, IfOk, OnOk};
ghost use Rattle.std.specs.List.{AllByRecursion};
ghost use Rattle.std.specs.FinMap.{empty, insert};
ghost use Rattle.bep_record.specs.Entry.{IsWellFormed};
ghost use Rattle.bep_record.specs.Node.{IsNode};
ghost use Rattle.bep_index.specs.Batch.{NamesDiffer, with_all};
ghost use Rattle.bep_document.specs.Faultless.{KeysDiffer};
ghost use Rattle.bep_cut_document.specs.Written.{with_nodes};

use bep_json::NamedParts;
use bep_map::NameMap;
use bep_record::{Entry, Items, Node, Record};
use std::alloc::{AllocError, Global};

// The records, each under its name. The last one is put first: names mostly rise, and the place of a name below all others is
// found by one comparison in each node of the map.
#[tactic(auto, using(crate::proofs::LastFirst::no_records_left))]
pub(crate) fn records_by_name(
    alloc: Global,
    entries: Items<Entry>,
) -> Result<NameMap<Record>, AllocError>
    requires well_formed { AllByRecursion IsWellFormed entries }
    requires names { NamesDiffer entries }
    ensures { IfOk result (λ made. made ≡ with_all empty entries) }
{
    let mut records = NameMap::new(alloc);
    let mut rest = entries.into_vec();
    while let Some(entry) = rest.pop() {
        put_record(&mut records, alloc, entry)?;
    }
    Ok(records)
}

fn put_record(records: &mut NameMap<Record>, alloc: Global, entry: Entry) -> Result<(), AllocError>
    requires { IsWellFormed entry }
    ensures { OnOk result (records.new ≡ insert records.old entry.name entry) }
{
    let name = entry.name.copy(alloc)?;
    records.insert(name, Record::of(alloc, entry)?)?;
    Ok(())
}

// The records, as they stand.
pub(crate) fn records_as_listed(
    alloc: Global,
    entries: Items<Entry>,
) -> Result<Items<Record>, AllocError>
    requires { AllByRecursion IsWellFormed entries }
    ensures { IfOk result (λ made. made ≡ entries) }
{
    let mut records = Vec::with_capacity(alloc, entries.as_slice().len())?;
    for entry in entries.into_vec() {
        records.push(Record::of(alloc, entry)?)?;
    }
    Ok(Items::new(records))
}

// The nodes, each under its name; the last one is put first, as of records.
#[tactic(auto, using(crate::proofs::LastFirst::no_nodes_left))]
pub(crate) fn nodes_by_name(
    alloc: Global,
    nodes: Items<NamedParts>,
) -> Result<NameMap<Node>, AllocError>
    requires nodes { AllByRecursion (λ node. IsNode node.parts) nodes }
    requires names { KeysDiffer (λ node. node.name) nodes }
    ensures { IfOk result (λ made. made ≡ with_nodes empty nodes) }
{
    let mut held = NameMap::new(alloc);
    let mut rest = nodes.into_vec();
    while let Some(node) = rest.pop() {
        put_node(&mut held, node)?;
    }
    Ok(held)
}

fn put_node(held: &mut NameMap<Node>, node: NamedParts) -> Result<(), AllocError>
    requires { IsNode node.parts }
    ensures { OnOk result (held.new ≡ insert held.old node.name node.parts) }
{
    held.insert(node.name, Node::read(node.parts).unwrap())?;
    Ok(())
}
