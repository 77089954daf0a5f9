//! Folders, links and rows as JSON, which are read again.
ghost use Rattle.std.specs.Prelude.{◌≡◌, map, OnOk};
ghost use Rattle.std.specs.FinMap.{entries, values};
ghost use Rattle.std.specs.List.{AllByRecursion};
ghost use Rattle.serde_json.specs.Data.{Data, string};
ghost use Rattle.bep_json.specs.Added.{Adds, AddsMember};
ghost use Rattle.bep_json.specs.Numbers.{is_whole, read_number, greatest_id};
ghost use Rattle.bep_json.specs.Texts.{is_text, read_folder_name};
ghost use Rattle.bep_json.specs.Says.{Says};
ghost use Rattle.bep_json.specs.Written.{whole, list_of, record_written};
ghost use Rattle.bep_cut_document.specs.Trees.{name_of_kind, records_tree, nodes_tree, view_tree, share_tree, folder_tree, flight_tree, link_tree, row_tree};
ghost use Rattle.bep_record.specs.Entry.{IsWellFormed};
ghost use Rattle.bep_cut_document.specs.inner.Sound.{AreRecords, AreNodes, IsViewSound, IsShareSound, IsFolderSound, IsFlightSound, IsLinkSound};
ghost use Rattle.bep_cut_document.specs.inner.Told.{IsRecordTold, IsNodeTold, IsViewTold, IsShareTold, IsFolderTold, IsFlightTold, IsLinkTold, IsRowTold};

use bep_index::IndexId;
use bep_json::{
    add_flag, add_number, add_text, device_is_told, texts_are_told, write_node, write_record,
};
use bep_map::NameMap;
use bep_model::{Flight, Row};
use bep_record::{FolderKind, FolderName, Items, Node, Record};
use bep_tables::{LinkState, PeerView, Share, SharedFolder};
use json::Writer;
use std::alloc::{AllocError, Global};

/// What stands in lists of a document.
pub(crate) trait Written {
    /// The tree of what is written of it.
    ghost tree_of: { Self → Data };

    /// This is read again, if it is in range: a law.
    ghost is_told: { Self → Type 0 };

    /// That its records and nodes are ones.
    ghost is_sound: { Self → Type 0 };

    /// Writes it, or fails for want of memory.
    fn write(&self, alloc: Global, out: &mut Writer) -> Result<(), AllocError>
        ensures value { OnOk result (Adds (tree_of self.now) out.old out.new) }
        ensures told { OnOk result (is_told self.now) }
        ensures sound { OnOk result (is_sound self.now) };
}

/// Writes a member with these, in order.
pub(crate) fn add_list<T: Written>(
    alloc: Global,
    out: &mut Writer,
    name: &str,
    items: &[T],
) -> Result<(), AllocError>
    ensures value { OnOk result (AddsMember name.now (list_of (map T.tree_of items.now)) out.old out.new) }
    ensures told { OnOk result (AllByRecursion T.is_told items.now) }
    ensures sound { OnOk result (AllByRecursion T.is_sound items.now) }
{
    out.key(name)?;
    out.begin_array()?;
    for item in items {
        item.write(alloc, out)?;
    }
    out.end_array()?;
    Ok(())
}

// The same of items.
fn add_items<T: Written>(
    alloc: Global,
    out: &mut Writer,
    name: &str,
    items: &Items<T>,
) -> Result<(), AllocError>
    ensures value { OnOk result (AddsMember name.now (list_of (map T.tree_of items.now)) out.old out.new) }
    ensures told { OnOk result (AllByRecursion T.is_told items.now) }
    ensures sound { OnOk result (AllByRecursion T.is_sound items.now) }
{
    add_list(alloc, out, name, items.as_slice())
}

// Writes a member with the records of a table, names rising.
fn add_records(
    alloc: Global,
    out: &mut Writer,
    name: &str,
    records: &NameMap<Record>,
) -> Result<(), AllocError>
    ensures value { OnOk result (AddsMember name.now (records_tree records.now) out.old out.new) }
    ensures told { OnOk result (AllByRecursion IsRecordTold (values records.now)) }
    ensures sound { OnOk result (AreRecords records.now) }
{
    out.key(name)?;
    out.begin_array()?;
    for entry in records.values() {
        entry.write(alloc, out)?;
    }
    out.end_array()?;
    Ok(())
}

// Writes a member with the nodes of a table, names rising.
fn add_nodes(
    alloc: Global,
    out: &mut Writer,
    name: &str,
    nodes: &NameMap<Node>,
) -> Result<(), AllocError>
    ensures value { OnOk result (AddsMember name.now (nodes_tree nodes.now) out.old out.new) }
    ensures told { OnOk result (AllByRecursion IsNodeTold (entries nodes.now)) }
    ensures sound { OnOk result (AreNodes nodes.now) }
{
    out.key(name)?;
    out.begin_array()?;
    for (held, node) in nodes.iter() {
        node.parts();
        write_node(alloc, out, held, node)?;
    }
    out.end_array()?;
    Ok(())
}

fn name_of_kind(kind: FolderKind) -> &'static str
    ensures { result.now ≡ name_of_kind kind }
{
    match kind {
        FolderKind::SendReceive => "send-receive",
        FolderKind::SendOnly => "send-only",
        FolderKind::ReceiveOnly => "receive-only",
    }
}

// Numbers, index ids and folder names are read again: a law, which does nothing when it runs.
fn number_is_told(number: u64)
    ensures { Says is_whole (read_number 0 greatest_id) number (whole number) }
{}

fn index_is_told(index: IndexId)
    ensures { Says is_whole (read_number 1 greatest_id) index (whole index) }
{
    index.number();
}

fn folder_is_told(folder: &FolderName)
    ensures { Says is_text read_folder_name folder.now (string folder.now) }
{
    texts_are_told();
    folder.as_bytes();
}

impl Written for PeerView {
    ghost tree_of = { view_tree };

    ghost is_told = { IsViewTold };

    ghost is_sound = { IsViewSound };

    fn write(&self, alloc: Global, out: &mut Writer) -> Result<(), AllocError> {
        device_is_told(self.of);
        number_is_told(self.index_id);
        out.begin_object()?;
        add_number(out, "index_id", self.index_id)?;
        add_number(out, "max", self.max_sequence)?;
        add_number(out, "of", self.of.number())?;
        add_records(alloc, out, "records", &self.records)?;
        out.end_object()?;
        Ok(())
    }
}

impl Written for Share {
    ghost tree_of = { share_tree };

    ghost is_told = { IsShareTold };

    ghost is_sound = { IsShareSound };

    fn write(&self, alloc: Global, out: &mut Writer) -> Result<(), AllocError> {
        device_is_told(self.device);
        index_is_told(self.index_id);
        out.begin_object()?;
        add_number(out, "device", self.device.number())?;
        add_number(out, "index_id", self.index_id.number())?;
        add_text(out, "kind", name_of_kind(self.kind))?;
        add_number(out, "max", self.max_sequence)?;
        add_records(alloc, out, "own", &self.own)?;
        add_records(alloc, out, "pulls", &self.pulls)?;
        add_nodes(alloc, out, "store", &self.store)?;
        add_items(alloc, out, "views", &self.views)?;
        out.end_object()?;
        Ok(())
    }
}

impl Written for SharedFolder {
    ghost tree_of = { folder_tree };

    ghost is_told = { IsFolderTold };

    ghost is_sound = { IsFolderSound };

    fn write(&self, alloc: Global, out: &mut Writer) -> Result<(), AllocError> {
        folder_is_told(&self.folder);
        out.begin_object()?;
        add_items(alloc, out, "devices", &self.shares)?;
        add_text(out, "folder", self.folder.as_str())?;
        out.end_object()?;
        Ok(())
    }
}

impl Written for Record {
    ghost tree_of = { record_written };

    ghost is_told = { IsRecordTold };

    ghost is_sound = { IsWellFormed };

    fn write(&self, alloc: Global, out: &mut Writer) -> Result<(), AllocError> {
        self.entry();
        write_record(alloc, out, self)
    }
}

impl Written for Flight {
    ghost tree_of = { flight_tree };

    ghost is_told = { IsFlightTold };

    ghost is_sound = { IsFlightSound };

    fn write(&self, alloc: Global, out: &mut Writer) -> Result<(), AllocError> {
        folder_is_told(&self.folder);
        out.begin_object()?;
        add_text(out, "folder", self.folder.as_str())?;
        add_flag(out, "full", self.full)?;
        add_items(alloc, out, "records", &self.records)?;
        out.end_object()?;
        Ok(())
    }
}

impl Written for LinkState {
    ghost tree_of = { link_tree };

    ghost is_told = { IsLinkTold };

    ghost is_sound = { IsLinkSound };

    fn write(&self, alloc: Global, out: &mut Writer) -> Result<(), AllocError> {
        device_is_told(self.a);
        device_is_told(self.b);
        out.begin_object()?;
        add_number(out, "a", self.a.number())?;
        add_number(out, "b", self.b.number())?;
        add_number(out, "epoch", self.epoch)?;
        add_items(alloc, out, "to_a", &self.to_a)?;
        add_items(alloc, out, "to_b", &self.to_b)?;
        add_flag(out, "up", self.up)?;
        out.end_object()?;
        Ok(())
    }
}

impl Written for Row {
    ghost tree_of = { row_tree };

    ghost is_told = { IsRowTold };

    ghost is_sound = { λ row. IsWellFormed row.entry };

    fn write(&self, alloc: Global, out: &mut Writer) -> Result<(), AllocError> {
        folder_is_told(&self.folder);
        device_is_told(self.device);
        out.begin_object()?;
        add_number(out, "device", self.device.number())?;
        add_text(out, "folder", self.folder.as_str())?;
        out.key("record")?;
        self.entry.write(alloc, out)?;
        out.end_object()?;
        Ok(())
    }
}
