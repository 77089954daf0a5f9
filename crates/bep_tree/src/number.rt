//! Numbers, which a tree keeps as texts.
ghost use Rattle.std.specs.Prelude.{◌≡◌, ◌==◌, ◌<◌, ◌≤◌, IsTrue, true, false, is_some, length, slice_index, option_and_then};
ghost use Rattle.std.specs.Option.{SomeIff};
ghost use Rattle.std.specs.Str.Parse.{digits_value, IsNumeral};
ghost use Rattle.serde_json.specs.Find.{as_number, as_u64, as_i64};
ghost use Rattle.serde_json.specs.Read.{number_of, number_from, float_of};
ghost use Rattle.bep_tree.specs.View.{view};

use crate::Tree;
use fast_float::Numeral;

/// The number, where it is written as a whole one from 0 to 18446744073709551615, so without fraction, exponent or sign.
pub fn as_u64(tree: &Tree<'_>) -> Option<u64>
    ensures { result ≡ option_and_then as_u64 (as_number (view tree.now)) }
{
    match tree.as_number() {
        Some(text) => unsigned_in(text),
        None => None,
    }
}

/// The number, where it is written as a whole one from -9223372036854775808 to 9223372036854775807, so without fraction or
/// exponent; `-0` is none.
pub fn as_i64(tree: &Tree<'_>) -> Option<i64>
    ensures { result ≡ option_and_then as_i64 (as_number (view tree.now)) }
{
    match tree.as_number() {
        Some(text) => signed_in(text),
        None => None,
    }
}

// The unsigned number of 64 bits that the text writes.
pub(crate) fn unsigned_in(text: &str) -> Option<u64>
    ensures { result ≡ option_and_then as_u64 (number_of text.now) }
{
    let bytes = text.as_bytes();
    match few_digits(bytes) {
        Some(number) => Some(number),
        None => scanned_unsigned(bytes),
    }
}

// The signed number of 64 bits that the text writes.
fn signed_in(text: &str) -> Option<i64>
    ensures { result ≡ option_and_then as_i64 (number_of text.now) }
{
    let bytes = text.as_bytes();
    match few_digits(bytes) {
        Some(number) => Some(number as i64),
        None => scanned_signed(bytes),
    }
}

// The number that these bytes write, if they are digits alone, and at most 18 of them: no scan for a sign, a point or an
// exponent is needed then. Most numbers of documents are such.
#[inline(always)]
fn few_digits(bytes: &[u8]) -> Option<u64>
    ensures { SomeIff result (IsNumeral 10 bytes.now × (length bytes.now ≤ 18)) (digits_value 10 bytes.now) }
{
    if bytes.is_empty() || bytes.len() > 18 {
        return None;
    }
    let mut value = 0u64;
    for byte in bytes {
        let digit = byte.wrapping_sub(b'0');
        if digit > 9 {
            return None;
        }
        value = value * 10 + digit as u64;
    }
    Some(value)
}

// The unsigned number of 64 bits that any bytes write.
fn scanned_unsigned(bytes: &[u8]) -> Option<u64>
    ensures { result ≡ option_and_then as_u64 (number_of bytes.now) }
{
    if has_minus(bytes) {
        None
    } else {
        unsigned(&Numeral::scan(bytes))
    }
}

// The signed number of 64 bits that any bytes write.
fn scanned_signed(bytes: &[u8]) -> Option<i64>
    ensures { result ≡ option_and_then as_i64 (number_of bytes.now) }
{
    if has_minus(bytes) {
        below_zero(&Numeral::scan(&bytes[1..]))
    } else {
        above_zero(&Numeral::scan(bytes))
    }
}

// The number without a sign that has these digits, in 64 bits.
fn unsigned(numeral: &Numeral<'_>) -> Option<u64>
    ensures { result ≡ option_and_then as_u64 (number_from false numeral.now) }
{
    numeral.to_u64()
}

// The number without a sign that has these digits, in 63 bits.
fn above_zero(numeral: &Numeral<'_>) -> Option<i64>
    ensures { result ≡ option_and_then as_i64 (number_from false numeral.now) }
{
    numeral.to_i64(false)
}

// The number below zero that has these digits.
fn below_zero(numeral: &Numeral<'_>) -> Option<i64>
    ensures { result ≡ option_and_then as_i64 (number_from true numeral.now) }
{
    match numeral.to_i64(true) {
        Some(number) if number < 0 => Some(number),
        _ => None,
    }
}

// Whether the number that the text writes is whole and has 64 bits, or is a finite float.
pub(crate) fn is_in_range(text: &str) -> bool
    ensures { result ≡ is_some (number_of text.now) }
{
    let bytes = text.as_bytes();
    few_digits(bytes).is_some() || is_scanned_in_range(bytes)
}

// The same of any bytes.
fn is_scanned_in_range(bytes: &[u8]) -> bool
    ensures { result ≡ is_some (number_of bytes.now) }
{
    if has_minus(bytes) {
        fits_below_zero(&Numeral::scan(&bytes[1..]))
    } else {
        fits_unsigned(&Numeral::scan(bytes))
    }
}

// The same of a number without a sign that has these digits.
fn fits_unsigned(numeral: &Numeral<'_>) -> bool
    ensures { result ≡ is_some (number_from false numeral.now) }
{
    numeral.to_u64().is_some() || is_finite(false, numeral)
}

// The same of a number below zero that has these digits.
fn fits_below_zero(numeral: &Numeral<'_>) -> bool
    ensures { result ≡ is_some (number_from true numeral.now) }
{
    below_zero(numeral).is_some() || is_finite(true, numeral)
}

// Whether the float that is nearest to the number is finite.
fn is_finite(negative: bool, numeral: &Numeral<'_>) -> bool
    ensures { result ≡ is_some (float_of negative numeral.now) }
{
    numeral.to_float::<f64>(negative).is_finite()
}

// Whether the text begins with a minus sign.
fn has_minus(bytes: &[u8]) -> bool
    ensures value { result ≡ (slice_index bytes.now 0 == 45) }
    ensures some { IsTrue result → 0 < length bytes.now }
{
    !bytes.is_empty() && bytes[0] == b'-'
}
