//! The details of a failure as JSON. No contract speaks of what they say.
ghost use Rattle.std.specs.Prelude.{OnOk};
ghost use Rattle.bep_explain.specs.inner.Added.{AddsSome};

use crate::as_json::write_device;
use crate::detail::{Detail, What};
use bep_blocks::blocks;
use bep_json::{add_number, add_signed, add_text, write_hashes, write_null, write_record};
use bep_record::{DeviceId, Kind, Node, Record};
use json::Writer;
use std::alloc::{AllocError, Global};

/// Writes each of these, as a list.
pub(crate) fn write_details(
    alloc: Global,
    out: &mut Writer,
    details: &[Detail<'_>],
) -> Result<(), AllocError>
    ensures { OnOk result (AddsSome out.old out.new) }
{
    out.begin_array()?;
    for detail in details {
        write_detail(alloc, out, detail)?;
    }
    out.end_array()?;
    Ok(())
}

fn write_detail(alloc: Global, out: &mut Writer, detail: &Detail<'_>) -> Result<(), AllocError>
    ensures { OnOk result (AddsSome out.old out.new) }
{
    match (detail.what, detail.from) {
        (What::Store, _) => write_stored(alloc, out, detail),
        (_, None) => write_had(alloc, out, detail),
        (_, Some(from)) => write_had_from(alloc, out, detail, from),
    }
}

// Writes what a device stores, null where that is nothing.
fn write_stored(alloc: Global, out: &mut Writer, detail: &Detail<'_>) -> Result<(), AllocError>
    ensures { OnOk result (AddsSome out.old out.new) }
{
    out.begin_object()?;
    out.key("device")?;
    write_device(out, detail.device)?;
    out.key("node")?;
    write_node_or_null(alloc, out, detail.node)?;
    add_text(out, "what", word_of(detail.what))?;
    out.end_object()?;
    Ok(())
}

// Writes the record that a device has, null where there is none.
fn write_had(alloc: Global, out: &mut Writer, detail: &Detail<'_>) -> Result<(), AllocError>
    ensures { OnOk result (AddsSome out.old out.new) }
{
    out.begin_object()?;
    out.key("device")?;
    write_device(out, detail.device)?;
    out.key("record")?;
    write_record_or_null(alloc, out, detail.record)?;
    add_text(out, "what", word_of(detail.what))?;
    out.end_object()?;
    Ok(())
}

// The same with the device from which it is, where that is another one.
fn write_had_from(
    alloc: Global,
    out: &mut Writer,
    detail: &Detail<'_>,
    from: DeviceId,
) -> Result<(), AllocError>
    ensures { OnOk result (AddsSome out.old out.new) }
{
    out.begin_object()?;
    out.key("device")?;
    write_device(out, detail.device)?;
    add_number(out, "from", from.number())?;
    out.key("record")?;
    write_record_or_null(alloc, out, detail.record)?;
    add_text(out, "what", word_of(detail.what))?;
    out.end_object()?;
    Ok(())
}

fn word_of(what: What) -> &'static str {
    match what {
        What::Winner => "winner",
        What::Row => "row",
        What::Own => "record",
        What::Store => "store",
        What::View => "view",
        What::Message => "message",
        What::Pull => "pull",
    }
}

fn write_record_or_null(
    alloc: Global,
    out: &mut Writer,
    record: Option<&Record>,
) -> Result<(), AllocError>
    ensures { OnOk result (AddsSome out.old out.new) }
{
    match record {
        Some(record) => write_record(alloc, out, record),
        None => write_null(out),
    }
}

fn write_node_or_null(
    alloc: Global,
    out: &mut Writer,
    node: Option<&Node>,
) -> Result<(), AllocError>
    ensures { OnOk result (AddsSome out.old out.new) }
{
    match node {
        Some(node) => write_content(alloc, out, node),
        None => write_null(out),
    }
}

// Writes what is there, with the hashes of its blocks in place of its bytes.
fn write_content(alloc: Global, out: &mut Writer, node: &Node) -> Result<(), AllocError>
    ensures { OnOk result (AddsSome out.old out.new) }
{
    let parts = node.parts();
    out.begin_object()?;
    out.key("blocks")?;
    write_blocks(alloc, out, node)?;
    add_number(out, "modified_ns", u64::from(parts.modified_ns))?;
    add_signed(out, "modified_s", parts.modified_s)?;
    add_number(out, "size", parts.bytes.as_slice().len() as u64)?;
    add_text(out, "target", parts.target.as_str())?;
    add_number(out, "type", number_of(parts.kind))?;
    out.end_object()?;
    Ok(())
}

// The number of a kind (BEP v1, 'FileInfo').
fn number_of(kind: Kind) -> u64 {
    match kind {
        Kind::File => 0,
        Kind::Directory => 1,
        Kind::Symlink => 4,
    }
}

// Writes the hashes of a file's blocks, and none of what is no file.
fn write_blocks(alloc: Global, out: &mut Writer, node: &Node) -> Result<(), AllocError>
    ensures { OnOk result (AddsSome out.old out.new) }
{
    match node.parts().kind {
        Kind::File => write_hashes_of(alloc, out, node),
        Kind::Directory | Kind::Symlink => write_hashes(alloc, out, &[]),
    }
}

fn write_hashes_of(alloc: Global, out: &mut Writer, node: &Node) -> Result<(), AllocError>
    ensures { OnOk result (AddsSome out.old out.new) }
{
    let bytes = node.parts().bytes.as_slice();
    let Ok(list) = blocks(alloc, bytes, node.block_size()) else {
        return Err(AllocError);
    };
    write_hashes(alloc, out, list.as_slice())
}
