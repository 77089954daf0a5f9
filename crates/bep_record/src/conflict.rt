//! The name under which the file of a losing record is kept.
ghost use Rattle.std.specs.Prelude.{◌≡◌, ◌⊎◌, ◌↔◌, ◌≤◌, ◌<◌, ◌++◌, length, take, drop, unsigned_abs, IfOk, IfErr, IsErrOf, OnOk};
ghost use Rattle.std.specs.Char.{digit_char};
ghost use Rattle.std.specs.Fmt.{decimal, signed_decimal};
ghost use Rattle.std.specs.String.{string_bytes};
ghost use Rattle.bep_record.specs.Name.{max_name_len};
ghost use Rattle.bep_record.specs.Conflict as spec;
ghost use Rattle.bep_record.specs.Conflict.{conflict_mark, conflict_name_of, extension_len, hex_digits};

use crate::device::DeviceId;
use crate::error::RecordError;
use crate::limits::MAX_NAME_LEN;
use crate::name::Name;
use crate::record::Record;
use std::alloc::{AllocError, Global};

// The bytes of a conflict name beside those of the name and of the time: `.sync-conflict-`, `-` and 16 digits.
const FIXED_LEN: usize = 32;

// How many bytes follow the last one with this value.
fn len_after_last(bytes: &[u8], byte: u8) -> usize
    ensures value { result ≡ spec.len_after_last byte bytes.now }
    ensures bound { result ≤ length bytes.now }
{
    bytes.iter().rev().take_while(|b| **b != byte).count()
}

// How long the stem of a name is.
fn stem_len(name: &[u8]) -> usize
    ensures value { result ≡ spec.stem_len name.now }
    ensures bound { result ≤ length name.now }
{
    let from_dot = len_after_last(name, b'.') + 1;
    if from_dot < len_after_last(name, b'/') {
        name.len() - from_dot
    } else {
        name.len()
    }
}

// The stem of a name, and its extension.
fn split_name(name: &str) -> (&str, &str)
    ensures stem { result.0.now ≡ take (spec.stem_len name.now) name.now }
    ensures extension { result.1.now ≡ drop (spec.stem_len name.now) name.now }
{
    let at = stem_len(name.as_bytes());
    name.split_at(at)
}

// How many digits a number has in decimal.
#[tactic(auto, using(crate::proofs::ConflictFacts::length_decimal_digit, crate::proofs::ConflictFacts::length_decimal_step, crate::proofs::ConflictFacts::length_decimal_bounds))]
fn decimal_len(number: u64) -> usize
    ensures value { result ≡ length (decimal number) }
    ensures bound { result ≤ 20 }
{
    let mut len = 1;
    let mut rest = number;
    while rest >= 10 {
        rest /= 10;
        len += 1;
    }
    len
}

// How many bytes a signed number has in decimal, with its minus sign.
fn signed_len(number: i64) -> usize
    ensures value { result ≡ length (signed_decimal number) }
    ensures bound { result ≤ 21 }
{
    let digits = decimal_len(number.unsigned_abs());
    if number < 0 { digits + 1 } else { digits }
}

// The hexadecimal digit of a number below 16.
fn hex_digit(number: u64) -> char
    requires { number < 16 }
    ensures { result ≡ digit_char number }
{
    if number < 10 {
        char::from(b'0' + number as u8)
    } else {
        char::from(b'a' + (number as u8 - 10))
    }
}

// Appends the last so many hexadecimal digits of a number.
#[tactic(auto, using(crate::proofs::ConflictFacts::hex_digits_none, crate::proofs::ConflictFacts::hex_digits_more))]
fn push_hex(text: &mut String, number: u64, count: u32) -> Result<(), AllocError>
    ensures { OnOk result (string_bytes text.new ≡ string_bytes text.old ++ hex_digits count number) }
{
    if count == 0 {
        return Ok(());
    }
    push_hex(text, number / 16, count - 1)?;
    text.push(hex_digit(number % 16))
}

// The text of a conflict name, from the parts of the name that it is made of.
fn conflict_text(
    alloc: Global,
    stem: &str,
    modified_s: i64,
    modified_by: DeviceId,
    extension: &str,
) -> Result<String, AllocError>
    ensures { IfOk result (λ text. string_bytes text ≡ stem.now ++ conflict_mark modified_s modified_by ++ extension.now) }
{
    let time = format!(in alloc; "{modified_s}")?;
    let mut text = String::from_str(alloc, stem)?;
    text.push_str(".sync-conflict-")?;
    text.push_str(time.as_str())?;
    text.push_str("-")?;
    push_hex(&mut text, modified_by.number(), 16)?;
    text.push_str(extension)?;
    Ok(text)
}

/// The name under which the file of a losing record is kept: the name's stem, `.sync-conflict-`, the record's time in
/// seconds, `-`, its `modified_by` as 16 hexadecimal digits, and the name's extension.
///
/// Refuses `NameBad` exactly where that has more than 1024 bytes; `Memory` may come in place of a name. This project's
/// profile.
pub fn conflict_name(alloc: Global, losing: &Record) -> Result<Name, RecordError>
    ensures ok { IfOk result (λ made. made ≡ conflict_name_of losing.now.name losing.now.modified_s losing.now.modified_by) }

    ensures bad { IsErrOf result RecordError.NameBad
        ↔ (max_name_len < length (conflict_name_of losing.now.name losing.now.modified_s losing.now.modified_by)) }
    ensures only { IfErr result (λ e. (e ≡ RecordError.NameBad) ⊎ (e ≡ RecordError.Memory)) }
{
    let entry = losing.entry();
    conflicted(alloc, &entry.name, entry.modified_s, entry.modified_by)
}

// The conflict name, from what it is made of.
fn conflicted(
    alloc: Global,
    name: &Name,
    modified_s: i64,
    modified_by: DeviceId,
) -> Result<Name, RecordError>
    ensures ok { IfOk result (λ made. made ≡ conflict_name_of name.now modified_s modified_by) }

    ensures bad { IsErrOf result RecordError.NameBad ↔ (max_name_len < length (conflict_name_of name.now modified_s modified_by)) }
    ensures only { IfErr result (λ e. (e ≡ RecordError.NameBad) ⊎ (e ≡ RecordError.Memory)) }
{
    let (stem, extension) = split_name(name.as_str());
    let len = name.as_str().len() + signed_len(modified_s) + FIXED_LEN;
    if len > MAX_NAME_LEN {
        return Err(RecordError::NameBad);
    }
    let text = conflict_text(alloc, stem, modified_s, modified_by, extension)?;
    Ok(Name::from_text(text))
}
