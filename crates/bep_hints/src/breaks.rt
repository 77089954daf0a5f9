//! Where bytes are no JSON.
use crate::sentence::said;
use crate::survey::Break;
use bep_lines::Piece;
use serde_json::Value;
use serde_json::error::Category;
use std::alloc::{AllocError, Global};

/// Where these bytes, which are no UTF-8, are no JSON. `serde_json` refuses them before it reads anything.
pub(crate) fn said_of_bytes(alloc: Global, bytes: &[u8]) -> Result<Vec<u8>, AllocError> {
    match Value::from_slice(alloc, bytes) {
        Ok(_) => Ok(Vec::new(alloc)),
        Err(error) => {
            let is_short = error.classify() == Category::Eof;
            said_at(alloc, error.line(), error.column(), is_short)
        }
    }
}

/// Where this text is no JSON: so many of its bytes were read before that showed.
pub(crate) fn said_of_break(
    alloc: Global,
    text: &str,
    place: usize,
    how: Break,
) -> Result<Vec<u8>, AllocError> {
    let bytes = text.as_bytes();
    let (before, rest) = bytes.split_at(place.min(bytes.len()));
    let (line, column, last) = line_and_column(before);
    let is_short = match how {
        Break::Short => rest.iter().all(is_blank) && last != b',',
        Break::NoValue => may_follow(last) && is_cut(alloc, rest),
        Break::NoKey => may_follow(last) && (rest.iter().all(is_blank) || is_cut_key(alloc, rest)),
        Break::Misplaced => false,
    };
    let column = column.saturating_add(usize::from(!rest.is_empty()));
    said_at(alloc, line, column, is_short)
}

fn is_blank(byte: &u8) -> bool {
    matches!(*byte, b' ' | b'\t' | b'\n' | b'\r')
}

// Whether a value or a key may follow this byte, 0 where there is none.
fn may_follow(last: u8) -> bool {
    matches!(last, 0 | b'[' | b'{' | b',' | b':')
}

// The same where a key is expected.
fn is_cut_key(alloc: Global, rest: &[u8]) -> bool {
    rest.starts_with(b"\"") && is_cut(alloc, rest)
}

// Whether these bytes, which don't begin with a token, begin one.
fn is_cut(alloc: Global, rest: &[u8]) -> bool {
    // these are tokens, and what follows may be long
    if rest.starts_with(b"[") || rest.starts_with(b"{") {
        return false;
    }
    match Value::from_slice(alloc, rest) {
        Ok(_) => false,
        Err(error) => error.classify() == Category::Eof,
    }
}

// The line at the end of these bytes, from 1, the column in it, from 0, and the last byte that isn't blank, 0 where there is
// none.
fn line_and_column(before: &[u8]) -> (usize, usize, u8) {
    let (mut line, mut column, mut last) = (1usize, 0usize, 0u8);
    for byte in before {
        if *byte == b'\n' {
            line = line.saturating_add(1);
            column = 0;
        } else {
            column = column.saturating_add(1);
        }
        if !is_blank(byte) {
            last = *byte;
        }
    }
    (line, column, last)
}

fn said_at(
    alloc: Global,
    line: usize,
    column: usize,
    is_short: bool,
) -> Result<Vec<u8>, AllocError> {
    let what = if is_short {
        ": the JSON ends before it is whole"
    } else {
        ": this isn't JSON, nests too deep, or has too large a number or half a surrogate pair"
    };
    said(
        alloc,
        &[
            Piece::Text("line "),
            Piece::Number(line as u64),
            Piece::Text(", column "),
            Piece::Number(column as u64),
            Piece::Text(what),
        ],
    )
}
