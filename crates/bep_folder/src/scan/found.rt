//! The record that a scan makes of what it found.
ghost use Rattle.std.specs.Prelude.{◌≡◌, ◌⊎◌, ◌↔◌, true, IfOk, IfErr, IsErrOf};
ghost use Rattle.std.specs.Option.{option_copied};
ghost use Rattle.bep_record.specs.Node.{IsClean};
ghost use Rattle.bep_record.specs.Vector.{counter_of, greatest_counter};
ghost use Rattle.bep_machine.specs.Local.{Finds, IsCrowded, IsRaised, block_size_of_kind, blocks_of_kind, record_of_node};
ghost use Rattle.bep_folder.specs.inner.Found.{IsFound, IsCounterFull, IsVersionFull};
ghost use Rattle.bep_folder.specs.declared.error.FolderError.TheVariants.{CounterFull, TooManyCounters, Memory};

use crate::beside::version_of;
use crate::deletion::deletion;
use crate::{FolderError, ScanResult};
use bep_blocks::plain_blocks_match;
use bep_record::{
    Block, DeviceId, Entry, FolderKind, Items, Kind, Name, Node, Record, RecordError, Vector,
    Version,
};
use std::alloc::{AllocError, Global};

/// The record of what was found, beside the own record of the name, which it will replace. Refuses `CounterFull` and
/// `TooManyCounters` exactly where the version has to be raised and can't be, and else only for want of memory.
pub(crate) fn found(
    alloc: Global,
    kind: FolderKind,
    device: DeviceId,
    scan: ScanResult,
    own: Option<&Record>,
) -> Result<Record, FolderError>
    requires { ¬ IsClean scan.node (option_copied own) }
    ensures found { IfOk result (λ entry. IsFound kind device scan.name scan.node (option_copied own.entry) entry) }

    ensures counter_full { IsErrOf result CounterFull ↔ IsCounterFull kind device (option_copied own.entry) }
    ensures version_full { IsErrOf result TooManyCounters ↔ IsVersionFull kind device (option_copied own.entry) }
    ensures only { IfErr result (λ e. (e ≡ CounterFull) ⊎ (e ≡ TooManyCounters) ⊎ (e ≡ Memory)) }
{
    let version = version_of(own);
    match kind {
        FolderKind::ReceiveOnly => {
            let found = found_with(alloc, device, scan, own, &version)?;
            Ok(local_only(alloc, found)?)
        }
        FolderKind::SendReceive | FolderKind::SendOnly => {
            let raised = raised(version, device)?;
            Ok(found_with(alloc, device, scan, own, &raised)?)
        }
    }
}

// The version with the device's counter raised.
fn raised(mut version: Vector, device: DeviceId) -> Result<Vector, FolderError>
    ensures raised { IfOk result (λ raised. IsRaised device version raised) }
    ensures counter_full { IsErrOf result CounterFull ↔ (counter_of version device ≡ greatest_counter) }
    ensures version_full { IsErrOf result TooManyCounters ↔ IsCrowded device version }
    ensures only { IfErr result (λ e. (e ≡ CounterFull) ⊎ (e ≡ TooManyCounters)) }
{
    match version.bump(device) {
        Ok(()) => {
            let _counters = version.counters();
            Ok(version)
        }
        Err(RecordError::CounterFull) => Err(FolderError::CounterFull),
        Err(RecordError::TooManyCounters) => Err(FolderError::TooManyCounters),
        Err(_) => unreachable!(),
    }
}

// The record of what was found, under this version, or want of memory.
fn found_with(
    alloc: Global,
    device: DeviceId,
    scan: ScanResult,
    own: Option<&Record>,
    version: &Vector,
) -> Result<Record, AllocError>
    requires { ¬ IsClean scan.node (option_copied own) }
    ensures { IfOk result (λ made. Finds device scan.name scan.node (option_copied own.entry) version.now made) }
{
    let (name, node, blocks) = scan.into_parts();
    match (node, own) {
        (Some(node), _) => of_node(alloc, device, name, node, blocks, version),
        (None, Some(own)) => deletion(alloc, device, name, own, version),
        (None, None) => unreachable!(),
    }
}

// The record of a node with these blocks, or want of memory.
fn of_node(
    alloc: Global,
    device: DeviceId,
    name: Name,
    node: Node,
    blocks: Items<Block>,
    version: &Vector,
) -> Result<Record, AllocError>
    requires { blocks ≡ blocks_of_kind node.kind node.bytes }
    ensures { IfOk result (λ made. made ≡ record_of_node device name node version.now) }
{
    plain_blocks_match();
    let block_size = block_size_of(&node);
    let parts = node.into_parts();
    let version = Version::of(alloc, version)?;
    let entry = Entry {
        name,
        kind: parts.kind,
        size: parts.bytes.as_slice().len() as u64,
        modified_s: parts.modified_s,
        modified_ns: parts.modified_ns,
        modified_by: device,
        deleted: false,
        invalid: false,
        no_permissions: true,
        version,
        sequence: 0,
        block_size,
        blocks,
        target: parts.target,
    };
    Record::of(alloc, entry)
}

// The number of bytes in each block of the node but the last.
fn block_size_of(node: &Node) -> u32
    ensures { result ≡ block_size_of_kind node.now.kind node.now.bytes }
{
    match node.parts().kind {
        Kind::File => node.block_size().bytes(),
        Kind::Directory | Kind::Symlink => 0,
    }
}

// The record with the mark of a local change in a receive-only folder, or want of memory.
fn local_only(alloc: Global, found: Record) -> Result<Record, AllocError>
    ensures { IfOk result (λ made. made ≡ record found { invalid = true }) }
{
    let mut entry = found.into_entry(alloc)?;
    entry.invalid = true;
    Record::of(alloc, entry)
}
