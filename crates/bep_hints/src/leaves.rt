//! Values of one piece: whether they are what they should be. And in which words it is told what a value should be.
use crate::members::Sort;
use crate::vectors::{is_list_of_pairs, is_vector};
use bep_json::{DocVersion, Nanoseconds, ReadError, Readable, Sequence, Whole};
use bep_record::{DeviceId, FolderKind, FolderName, Kind, Name, Target};
use bep_tree::{Tree, as_bool, as_i64, as_str, as_u64};
use std::alloc::Global;

/// Whether the value is of the kind that the sort asks for.
pub(crate) fn has_shape(version: DocVersion, sort: Sort, value: &Tree<'_>) -> bool {
    match sort {
        Sort::Anything => true,
        // one that begins with a known word isn't of one piece
        Sort::Step => false,
        Sort::Flag => as_bool(value).is_some(),
        Sort::Version => is_list_of_pairs(version, value),
        Sort::FolderKind
        | Sort::FolderName
        | Sort::Name
        | Sort::Target
        | Sort::Hash
        | Sort::Text
        | Sort::Hex => as_str(value).is_some(),
        _ => i64::has_shape(version, value),
    }
}

/// Whether the value, which is of that kind, is within its range.
pub(crate) fn is_in_range(
    alloc: Global,
    version: DocVersion,
    sort: Sort,
    value: &Tree<'_>,
) -> bool {
    match sort {
        Sort::DocVersion => reads::<Whole<1, 2>>(alloc, version, value),
        Sort::Id => reads::<DeviceId>(alloc, version, value),
        Sort::AnyId => as_u64(value).is_some(),
        Sort::Sequence => reads::<Sequence>(alloc, version, value),
        Sort::Seconds => as_i64(value).is_some(),
        Sort::Nanoseconds => reads::<Nanoseconds>(alloc, version, value),
        Sort::FileSize => is_file_size(version, value),
        Sort::BlockSize => reads::<Whole<0, 4294967295>>(alloc, version, value),
        Sort::Kind => reads::<Kind>(alloc, version, value),
        Sort::FolderKind => reads::<FolderKind>(alloc, version, value),
        Sort::FolderName => reads::<FolderName>(alloc, version, value),
        Sort::Name => reads::<Name>(alloc, version, value),
        Sort::Target => reads::<Target>(alloc, version, value),
        Sort::Hash => reads::<[u8; 32]>(alloc, version, value),
        Sort::Version => is_vector(alloc, value),
        Sort::Text => fits_file(version, value),
        Sort::Hex => is_hex(version, value),
        _ => true,
    }
}

// Whether the value is read as a `T`, or can't be for want of memory alone.
fn reads<T: Readable>(alloc: Global, version: DocVersion, value: &Tree<'_>) -> bool {
    match T::read(alloc, version, value) {
        Err(ReadError::Range) => false,
        Ok(_) | Err(ReadError::Memory) => true,
    }
}

fn is_file_size(version: DocVersion, value: &Tree<'_>) -> bool {
    match as_u64(value) {
        Some(size) => size <= version.most_file_bytes(),
        None => false,
    }
}

fn fits_file(version: DocVersion, value: &Tree<'_>) -> bool {
    match as_str(value) {
        Some(text) => text.len() as u64 <= version.most_file_bytes(),
        None => false,
    }
}

// Whether the value has two hexadecimal digits for each byte, and not too many.
fn is_hex(version: DocVersion, value: &Tree<'_>) -> bool {
    match as_str(value) {
        Some(digits) => {
            let digits = digits.as_bytes();
            digits.len() % 2 == 0
                && (digits.len() / 2) as u64 <= version.most_file_bytes()
                && digits.iter().all(|digit| digit.is_ascii_hexdigit())
        }
        None => false,
    }
}

/// What the sort asks for.
pub(crate) fn words_of(version: DocVersion, sort: Sort) -> &'static str {
    match sort {
        Sort::Anything => "anything",
        Sort::DocVersion => "the number 1 or 2",
        Sort::Flag => "true or false",
        Sort::Id => "a whole number from 1 to 18446744073709551615",
        Sort::AnyId => "a whole number from 0 to 18446744073709551615",
        Sort::Sequence => "a whole number from 0 to 9223372036854775807",
        Sort::Seconds => "a whole number from -9223372036854775808 to 9223372036854775807",
        Sort::Nanoseconds => "a whole number from 0 to 999999999",
        Sort::FileSize => in_version(
            version,
            "a whole number from 0 to 16777216",
            "a whole number from 0 to 536870912",
        ),
        Sort::BlockSize => "a whole number from 0 to 4294967295",
        Sort::Kind => "0 (a file), 1 (a directory) or 4 (a symlink)",
        Sort::FolderKind => "\"send-receive\", \"send-only\" or \"receive-only\"",
        Sort::FolderName => "a text of 1 to 64 ASCII letters, digits, '-' and '_'",
        Sort::Name =>
            "a name: 1 to 1024 bytes without NUL, its parts divided by '/' and none of them empty, '.' or '..'",
        Sort::Target => "a text of at most 1024 bytes without NUL",
        Sort::Hash => "64 hexadecimal digits",
        Sort::Version =>
            "a list of at most 16 pairs: an id from 1, rising, and a value from 1 to 9223372036854775807",
        Sort::Text => in_version(
            version,
            "a text of at most 16777216 bytes",
            "a text of at most 536870912 bytes",
        ),
        Sort::Hex => in_version(
            version,
            "two hexadecimal digits for each of at most 16777216 bytes",
            "two hexadecimal digits for each of at most 536870912 bytes",
        ),
        Sort::FreshLink => "a list of two devices",
        Sort::EditStep => "a list of this word, a device, a folder and a node",
        Sort::NameStep => "a list of this word, a device, a folder and a name",
        Sort::PairStep => "a list of this word and two devices",
        Sort::AnnounceStep => "a list of this word, two devices and a folder",
        Sort::AskStep => "a list of this word, two devices, a folder and a name",
        Sort::RestartStep => "a list of this word and a device",
        Sort::ResetStep => "a list of this word, a device and an index id",
        Sort::Step => in_version(
            version,
            "a list that begins with edit, remove, scan, override, revert, connect, lose, begin, deliver, announce, pull, ask, finish or restart",
            "a list that begins with edit, remove, scan, override, revert, connect, lose, begin, deliver, announce, pull, ask, finish, restart or reset",
        ),
        _ => "an object",
    }
}

// What is asked for in documents of this version.
fn in_version(version: DocVersion, one: &'static str, two: &'static str) -> &'static str {
    match version {
        DocVersion::One => one,
        DocVersion::Two => two,
    }
}
