//! Records and nodes as JSON: every member, so that they are read again as they were.
ghost use Rattle.std.specs.Prelude.{◌≡◌, map, OnOk};
ghost use Rattle.std.specs.List.{AllByRecursion};
ghost use Rattle.hex.specs.Hex.{IsBytes};
ghost use Rattle.bep_record.specs.Name.{IsName};
ghost use Rattle.bep_record.specs.Target.{IsTarget};
ghost use Rattle.bep_json.specs.Numbers.{is_whole, read_number, read_signed, greatest_id};
ghost use Rattle.bep_json.specs.Texts.{is_text, read_hash};
ghost use Rattle.bep_json.specs.Lists.{is_list, is_pair, read_version};
ghost use Rattle.bep_json.specs.Says.{Says};
ghost use Rattle.bep_json.specs.Back.{IsRecordBack, IsNodeBack};
ghost use Rattle.bep_json.specs.Added.{Adds};
ghost use Rattle.bep_json.specs.Written.{whole, signed, number_of, counter_written, version_written, hex_written, hashes_written, record_written, node_written};

use crate::added::{add_flag, add_number, add_signed, add_text, write_number, write_text};
use crate::device_is_told;
use bep_record::{Block, Entry, Kind, Name, Node, NodeParts, Record, Target, Version};
use json::Writer;
use std::alloc::{AllocError, Global};

/// Writes the record. It is read again from what was written in each version whose files may be so long, if its sequence is
/// at most 9223372036854775807.
pub fn write_record(alloc: Global, out: &mut Writer, written: &Record) -> Result<(), AllocError>
    ensures value { OnOk result (Adds (record_written written.now) out.old out.new) }
    ensures back { OnOk result (IsRecordBack written.now (record_written written.now)) }
{
    let entry = written.entry();
    fields_are_told(entry);
    out.begin_object()?;
    add_number(out, "block_size", u64::from(entry.block_size))?;
    out.key("blocks")?;
    write_hashes(alloc, out, entry.blocks.as_slice())?;
    add_flag(out, "deleted", entry.deleted)?;
    add_flag(out, "invalid", entry.invalid)?;
    add_number(out, "modified_by", entry.modified_by.number())?;
    add_number(out, "modified_ns", u64::from(entry.modified_ns))?;
    add_signed(out, "modified_s", entry.modified_s)?;
    add_text(out, "name", entry.name.as_str())?;
    add_number(out, "sequence", entry.sequence)?;
    add_number(out, "size", entry.size)?;
    add_text(out, "target", entry.target.as_str())?;
    add_number(out, "type", u64::from(number_of(entry.kind)))?;
    out.key("version")?;
    write_version(out, &entry.version)?;
    out.end_object()?;
    Ok(())
}

/// Writes what a store holds at the name. It is read again from what was written in each version whose files may be so long.
pub fn write_node(
    alloc: Global,
    out: &mut Writer,
    name: &Name,
    node: &Node,
) -> Result<(), AllocError>
    ensures value { OnOk result (Adds (node_written name.now node.now) out.old out.new) }
    ensures back { OnOk result (IsNodeBack (record { name = name.now; parts = node.now }) (node_written name.now node.now)) }
{
    let parts = node.parts();
    name_is_kept(name);
    target_is_kept(&parts.target);
    time_is_told(parts);
    out.begin_object()?;
    out.key("hex")?;
    write_hex(alloc, out, parts.bytes.as_slice())?;
    add_number(out, "modified_ns", u64::from(parts.modified_ns))?;
    add_signed(out, "modified_s", parts.modified_s)?;
    add_text(out, "name", name.as_str())?;
    add_text(out, "target", parts.target.as_str())?;
    add_number(out, "type", u64::from(number_of(parts.kind)))?;
    out.end_object()?;
    Ok(())
}

// What is written of a record's fields is read again: a law, which does nothing when it runs.
fn fields_are_told(entry: &Entry)
    ensures name { IsName entry.now.name }
    ensures target { IsTarget entry.now.target }
    ensures modified_s { Says is_whole read_signed entry.now.modified_s (signed entry.now.modified_s) }
    ensures modified_by { Says is_whole (read_number 1 greatest_id) entry.now.modified_by (whole entry.now.modified_by) }
    ensures version { Says (is_list is_pair) read_version entry.now.version (version_written entry.now.version) }
{
    name_is_kept(&entry.name);
    target_is_kept(&entry.target);
    signed_is_told(entry.modified_s);
    device_is_told(entry.modified_by);
    version_is_told(&entry.version);
}

// That the time of a node is read again.
fn time_is_told(parts: &NodeParts)
    ensures { Says is_whole read_signed parts.now.modified_s (signed parts.now.modified_s) }
{
    signed_is_told(parts.modified_s);
}

// What the type of a name keeps.
fn name_is_kept(name: &Name)
    ensures { IsName name.now }
{
    name.as_bytes();
}

// What the type of a target keeps.
fn target_is_kept(target: &Target)
    ensures { IsTarget target.now }
{
    target.as_bytes();
}

// That a version vector is read again.
fn version_is_told(version: &Version)
    ensures { Says (is_list is_pair) read_version version.now (version_written version.now) }
{
    version.counters();
}

// The number of a kind.
fn number_of(kind: Kind) -> u32
    ensures { result ≡ number_of kind }
{
    match kind {
        Kind::File => 0,
        Kind::Directory => 1,
        Kind::Symlink => 4,
    }
}

// That a signed number is read again.
fn signed_is_told(number: i64)
    ensures { Says is_whole read_signed number (signed number) }
{}

// Writes the bytes in hexadecimal digits.
fn write_hex(alloc: Global, out: &mut Writer, bytes: &[u8]) -> Result<(), AllocError>
    ensures value { OnOk result (Adds (hex_written bytes.now) out.old out.new) }
    ensures bytes { IsBytes bytes.now }
{
    let digits = hex::encode(alloc, bytes)?;
    write_text(out, digits.as_str())?;
    Ok(())
}

// Writes a hash in hexadecimal digits.
fn write_hash(alloc: Global, out: &mut Writer, hash: &[u8; 32]) -> Result<(), AllocError>
    ensures value { OnOk result (Adds (hex_written hash.now) out.old out.new) }
    ensures back { OnOk result (Says is_text read_hash hash.now (hex_written hash.now)) }
{
    write_hex(alloc, out, hash.as_slice())?;
    Ok(())
}

/// Writes the hashes of these blocks, as a list.
pub fn write_hashes(alloc: Global, out: &mut Writer, blocks: &[Block]) -> Result<(), AllocError>
    ensures value { OnOk result (Adds (hashes_written (map (λ b. b.hash) blocks.now)) out.old out.new) }
    ensures back { OnOk result (AllByRecursion (λ b. Says is_text read_hash b.hash (hex_written b.hash)) blocks.now) }
{
    out.begin_array()?;
    for block in blocks {
        write_hash(alloc, out, &block.hash)?;
    }
    out.end_array()?;
    Ok(())
}

// Writes the counters, each a list of an id and its value.
fn write_version(out: &mut Writer, version: &Version) -> Result<(), AllocError>
    ensures { OnOk result (Adds (version_written version.now) out.old out.new) }
{
    out.begin_array()?;
    for counter in version.counters() {
        write_counter(out, *counter)?;
    }
    out.end_array()?;
    Ok(())
}

// Writes an id with its value.
fn write_counter(out: &mut Writer, counter: (u64, u64)) -> Result<(), AllocError>
    ensures { OnOk result (Adds (counter_written counter) out.old out.new) }
{
    out.begin_array()?;
    write_number(out, counter.0)?;
    write_number(out, counter.1)?;
    out.end_array()?;
    Ok(())
}
