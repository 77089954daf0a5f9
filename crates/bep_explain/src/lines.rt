//! The details of a failure as lines of the text. No contract speaks of what they say.
use crate::detail::{Detail, What};
use crate::differing::{blocks_told, first_difference, stored_blocks};
use bep_lines::{Piece, push_pieces};
use bep_record::{Block, DeviceId, Entry, Kind, Node, Record};
use std::alloc::{AllocError, Global};

/// The blocks of a file, and which of them is told of.
#[derive(Drop)]
struct Told<'a> {
    blocks: &'a [Block],
    place: usize,
}

/// A line for each of these. Of files that have several blocks each line tells the same one: the first at which they differ.
pub fn lines_of(alloc: Global, details: &[Detail<'_>]) -> Result<Vec<Vec<u8>>, AllocError> {
    let mut stored = Vec::new(alloc);
    for detail in details {
        let list = stored_blocks(alloc, detail)?;
        stored.reserve(1)?;
        stored.push_reserved(list);
    }
    let place = first_difference(details, stored.as_slice());
    let mut lines = Vec::new(alloc);
    for (detail, list) in details.iter().zip(stored.iter()) {
        let blocks = blocks_told(detail, list.as_slice());
        let line = line_of(alloc, detail, &Told { blocks, place })?;
        lines.reserve(1)?;
        lines.push_reserved(line);
    }
    Ok(lines)
}

fn line_of(alloc: Global, detail: &Detail<'_>, told: &Told<'_>) -> Result<Vec<u8>, AllocError> {
    let mut line = Vec::new(alloc);
    push_label(&mut line, detail)?;
    match (detail.record, detail.node) {
        (Some(record), _) => push_record(alloc, &mut line, record, told)?,
        (None, Some(node)) => push_node(alloc, &mut line, node, told)?,
        (None, None) => push_text(&mut line, nothing_of(detail.what))?,
    }
    Ok(line)
}

fn nothing_of(what: What) -> &'static str {
    match what {
        What::Store => "nothing",
        _ => "none",
    }
}

// Says whose the record or the node is.
fn push_label(line: &mut Vec<u8>, detail: &Detail<'_>) -> Result<(), AllocError> {
    let device = detail.device;
    match detail.what {
        What::Winner if device.is_none() => push_text(line, "winner: "),
        What::Winner => push_device(line, "winner: device ", device, ", "),
        What::Row => push_device(line, "row: device ", device, ", "),
        What::Own => push_device(line, "record of ", device, ": "),
        What::Store => push_device(line, "store of ", device, ": "),
        What::View => {
            push_device(line, "view of ", detail.from, " at ")?;
            push_device(line, "", device, ": ")
        }
        What::Message => {
            push_device(line, "on its way from ", detail.from, " to ")?;
            push_device(line, "", device, ": ")
        }
        What::Pull => push_device(line, "pull at ", device, ": "),
    }
}

fn push_text(line: &mut Vec<u8>, said: &str) -> Result<(), AllocError> {
    push_pieces(line, &[Piece::Text(said)])
}

fn push_device<'a>(
    line: &mut Vec<u8>,
    before: &'a str,
    device: Option<DeviceId>,
    after: &'a str,
) -> Result<(), AllocError> {
    let number = match device {
        Some(device) => Piece::Number(device.number()),
        None => Piece::Text("-"),
    };
    push_pieces(line, &[Piece::Text(before), number, Piece::Text(after)])
}

// Says the record: its version, what it tells is there, its time, and whether it is local-only.
fn push_record(
    alloc: Global,
    line: &mut Vec<u8>,
    record: &Record,
    told: &Told<'_>,
) -> Result<(), AllocError> {
    let entry = record.entry();
    push_version(line, entry.version.counters())?;
    push_content(alloc, line, entry, told)?;
    push_time(line, entry.modified_s, entry.modified_ns)?;
    if entry.invalid {
        push_pieces(line, &[Piece::Text(", local-only")])?;
    }
    Ok(())
}

// Says what a store holds: kind, size and the first digits of a block's hash, or target, and its time.
fn push_node(
    alloc: Global,
    line: &mut Vec<u8>,
    node: &Node,
    told: &Told<'_>,
) -> Result<(), AllocError> {
    let parts = node.parts();
    match parts.kind {
        Kind::File => push_file(alloc, line, parts.bytes.as_slice().len() as u64, told)?,
        Kind::Directory => push_pieces(line, &[Piece::Text("directory")])?,
        Kind::Symlink => push_target(line, parts.target.as_bytes())?,
    }
    push_time(line, parts.modified_s, parts.modified_ns)
}

// Says the counters, as a document has them.
fn push_version(line: &mut Vec<u8>, counters: &[(u64, u64)]) -> Result<(), AllocError> {
    push_pieces(line, &[Piece::Text("version [")])?;
    let mut before = Piece::Text("[");
    for (id, value) in counters {
        let (id, value) = (Piece::Number(*id), Piece::Number(*value));
        push_pieces(
            line,
            &[before, id, Piece::Text(","), value, Piece::Text("]")],
        )?;
        before = Piece::Text(",[");
    }
    push_pieces(line, &[Piece::Text("], ")])
}

// Says what the entry tells is there.
fn push_content(
    alloc: Global,
    line: &mut Vec<u8>,
    entry: &Entry,
    told: &Told<'_>,
) -> Result<(), AllocError> {
    if entry.deleted {
        return push_pieces(line, &[Piece::Text("deleted")]);
    }
    match entry.kind {
        Kind::File => push_file(alloc, line, entry.size, told),
        Kind::Directory => push_pieces(line, &[Piece::Text("directory")]),
        Kind::Symlink => push_target(line, entry.target.as_bytes()),
    }
}

// Says a file of this size. A file of one block has its hash; of several, the one that is told of is named.
fn push_file(
    alloc: Global,
    line: &mut Vec<u8>,
    size: u64,
    told: &Told<'_>,
) -> Result<(), AllocError> {
    push_pieces(
        line,
        &[
            Piece::Text("file of "),
            Piece::Number(size),
            Piece::Text(" bytes"),
        ],
    )?;
    match told.blocks {
        [] => Ok(()),
        [only] => push_hash(alloc, line, ", sha256 ", only),
        [first, ..] => {
            let count = Piece::Number(told.blocks.len() as u64);
            push_pieces(line, &[Piece::Text(", "), count, Piece::Text(" blocks")])?;
            push_one_of_several(alloc, line, first, told)
        }
    }
}

// Says the block that is told of, or the first one, where the file has no such block.
fn push_one_of_several(
    alloc: Global,
    line: &mut Vec<u8>,
    first: &Block,
    told: &Told<'_>,
) -> Result<(), AllocError> {
    match told.blocks.get(told.place) {
        Some(block) if told.place > 0 => {
            let place = Piece::Number(told.place as u64);
            push_pieces(line, &[Piece::Text(", sha256 of block "), place])?;
            push_hash(alloc, line, " (the first is 0) ", block)
        }
        _ => push_hash(alloc, line, ", sha256 of the first ", first),
    }
}

// Says the first eight digits of a block's hash.
fn push_hash(
    alloc: Global,
    line: &mut Vec<u8>,
    said: &str,
    block: &Block,
) -> Result<(), AllocError> {
    let digits = hex::encode(alloc, &block.hash[..4])?;
    push_pieces(line, &[Piece::Text(said), Piece::Text(digits.as_str())])
}

fn push_target(line: &mut Vec<u8>, target: &[u8]) -> Result<(), AllocError> {
    push_pieces(line, &[Piece::Text("symlink to "), Piece::Name(target)])
}

// Says a time, as a document has it.
fn push_time(line: &mut Vec<u8>, seconds: i64, nanoseconds: u32) -> Result<(), AllocError> {
    let sign = Piece::Text(if seconds < 0 { "-" } else { "" });
    let (said, seconds) = (
        Piece::Text(", time "),
        Piece::Number(seconds.unsigned_abs()),
    );
    let (between, nanoseconds) = (Piece::Text(" s "), Piece::Number(u64::from(nanoseconds)));
    push_pieces(
        line,
        &[
            said,
            sign,
            seconds,
            between,
            nanoseconds,
            Piece::Text(" ns"),
        ],
    )
}
