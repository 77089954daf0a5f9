//! The lines of a stream, as they are read.
ghost use Rattle.std.specs.Prelude.{◌≡◌, ◌+◌, ◌<◌, IfOk, drop, length};
ghost use Rattle.std.specs.Io.KnownBytes.{IsAtEnd};
ghost use Rattle.bep_rows_answer.specs.Input.{IsFound, IsGrown, newline_at};

use bep_report::ReportError;
use memchr::memchr;
use std::alloc::{AllocError, Global};
use std::io::Read;

/// The most bytes of a line, without its end.
///
/// This project's profile.
pub const MAX_LINE: usize = 1048576;

// The bytes that are asked of the reader at once.
const PIECE: usize = 8192;

/// What comes next in a stream.
#[derive(Clone, Copy, Debug, PartialEq, Eq)]
pub enum Next {
    /// A line of so many bytes, and its end.
    Line(usize),
    /// The last line, which has no end, or nothing.
    Last,
    /// A line that is too long.
    TooLong,
}

// Where the first line ends, if it does.
fn newline_at(bytes: &[u8]) -> Option<usize>
    ensures { result ≡ newline_at bytes.now }
{
    memchr(b'\n', bytes)
}

// Appends what one read gives, and says how many bytes that is.
fn read_more<R: Read>(reader: &mut R, pending: &mut Vec<u8>) -> Result<usize, ReportError>
    ensures grown { IfOk result (λ _. IsGrown (R.remaining reader.old) (R.remaining reader.new) pending.old.items pending.new.items) }
    ensures count { IfOk result (λ count. length pending.new.items ≡ length pending.old.items + count) }
    ensures end { IfOk result (λ count. count ≡ 0 → IsAtEnd (R.remaining reader.new)) }
{
    let mut buffer = [0; PIECE];
    match reader.read(&mut buffer) {
        Ok(count) => {
            pending.extend_from_slice(&buffer[..count])?;
            Ok(count)
        }
        Err(_) => Err(ReportError::Read),
    }
}

// Reads until the first of the bytes that are pending is a whole line, or none comes any more, or it is too long.
pub(crate) fn read_line<R: Read>(reader: &mut R, pending: &mut Vec<u8>) -> Result<Next, ReportError>
    ensures grown { IfOk result (λ _. IsGrown (R.remaining reader.old) (R.remaining reader.new) pending.old.items pending.new.items) }
    ensures found { IfOk result (IsFound (R.remaining reader.new) pending.new.items) }
{
    while pending.len() <= MAX_LINE {
        if let Some(len) = newline_at(pending.as_slice()) {
            return Ok(Next::Line(len));
        }
        let count = read_more(reader, pending)?;
        if count == 0 {
            return Ok(Next::Last);
        }
    }
    match newline_at(pending.as_slice()) {
        Some(len) if len <= MAX_LINE => Ok(Next::Line(len)),
        _ => Ok(Next::TooLong),
    }
}

// The bytes behind the first line, of so many bytes, and its end.
pub(crate) fn behind(alloc: Global, pending: &[u8], len: usize) -> Result<Vec<u8>, AllocError>
    requires { len < length pending.now }
    ensures { IfOk result (λ rest. rest.items ≡ drop (len + 1) pending.now) }
{
    Vec::from_slice(alloc, &pending[len + 1..])
}
