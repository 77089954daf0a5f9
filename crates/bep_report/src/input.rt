//! Reading a document.
ghost use Rattle.std.specs.Prelude.{◌≡◌, ◌⊎◌, ◌++◌, ◌<◌, ◌≤◌, IfOk, IfErr, length, take};
ghost use Rattle.std.specs.Io.KnownBytes.{Consumes, IsAtEnd};
ghost use Rattle.bep_report.specs.Input.{IsRead, IsReadUpTo};

use crate::ReportError;
use std::alloc::{AllocError, Global};
use std::io::Read;

// The most bytes that are read: one more than the greatest document has.
const MOST_READ: usize = 67108865;

// The most bytes that are asked of the reader at once.
const PIECE: usize = 65536;

// The room of the buffer that is read into; most of it is never touched. The system's C library gives memory of this size
// back to the system once it is freed. From then on it keeps smaller memory that is freed, and hands it out again. Most lists
// of a document are smaller. So the memory of one list serves another, and the system needn't clear each page anew.
const ROOM: usize = 4_194_304;

// So many bytes to read into.
fn buffer_of(alloc: Global, len: usize) -> Result<Vec<u8>, AllocError>
    ensures { IfOk result (λ buffer. length buffer.items ≡ len) }
{
    let mut buffer = Vec::with_capacity(alloc, ROOM)?;
    buffer.resize(len, 0)?;
    Ok(buffer)
}

// Appends what one read gives, and says how many bytes that is.
fn append_read<R: Read>(
    reader: &mut R,
    buffer: &mut [u8],
    bytes: &mut Vec<u8>,
) -> Result<usize, ReportError>
    ensures count { IfOk result (λ count. count ≤ length buffer.new) }
    ensures grown { IfOk result (λ count. bytes.new.items ≡ bytes.old.items ++ take count buffer.new) }
    ensures taken { IfOk result (λ count.
        Consumes (R.remaining reader.old) (R.remaining reader.new) (take count buffer.new)) }
    ensures end { IfOk result (λ count. count ≡ 0 → 0 < length buffer.old → IsAtEnd (R.remaining reader.new)) }
    ensures only { IfErr result (λ e. (e ≡ ReportError.Read) ⊎ (e ≡ ReportError.Memory)) }
{
    match reader.read(buffer) {
        Ok(count) => {
            bytes.extend_from_slice(&buffer[..count])?;
            Ok(count)
        }
        Err(_) => Err(ReportError::Read),
    }
}

// The reader's bytes, as far as so many of them.
fn read_up_to<R: Read>(alloc: Global, reader: &mut R, most: usize) -> Result<Vec<u8>, ReportError>
    ensures read { IfOk result (λ bytes.
        IsReadUpTo most (R.remaining reader.old) (R.remaining reader.new) bytes.items) }
    ensures only { IfErr result (λ e. (e ≡ ReportError.Read) ⊎ (e ≡ ReportError.Memory)) }
{
    let mut bytes = Vec::new(alloc);
    let mut buffer = buffer_of(alloc, PIECE)?;
    while bytes.len() < most {
        let room = PIECE.min(most - bytes.len());
        let count = append_read(reader, &mut buffer[..room], &mut bytes)?;
        if count == 0 {
            return Ok(bytes);
        }
    }
    Ok(bytes)
}

/// The reader's bytes, as far as 67108865 of them, which is one more than the greatest document has.
///
/// Refuses `Read` if the reader answers any error: an interrupted read isn't tried again. `Memory` may come in place of
/// the bytes.
#[tactic(auto, unfolding(crate::specs::Input::most_read))]
pub fn read_document<R: Read>(alloc: Global, reader: &mut R) -> Result<Vec<u8>, ReportError>
    ensures read { IfOk result (λ bytes. IsRead (R.remaining reader.old) (R.remaining reader.new) bytes.items) }
    ensures only { IfErr result (λ e. (e ≡ ReportError.Read) ⊎ (e ≡ ReportError.Memory)) }
{
    read_up_to(alloc, reader, MOST_READ)
}
