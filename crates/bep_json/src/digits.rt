//! Bytes that are written in hexadecimal digits.
ghost use Rattle.std.specs.Prelude.{◌≡◌, ◌*◌, ◌≤◌, ◌⊎◌, ℕ, length, Some, None, IfOk, option_map, if◌then◌else◌};
ghost use Rattle.std.specs.Result.{result_ok};
ghost use Rattle.hex.specs.Hex.{decode_of, decode_pairs, decode_sized, hex_digit_value, pair_value};
ghost use Rattle.bep_json.specs.inner.Digits.{digit_of};

use std::alloc::{AllocError, Global};

// The value of each byte as a digit of either case; 256 where it is none, which makes more than a byte of any pair. The crate
// `hex` decides by ranges, which takes several times as long, since a processor can't foresee whether a digit is a letter.
const VALUES: [u16; 256] = [
    256, 256, 256, 256, 256, 256, 256, 256, 256, 256, 256, 256, 256, 256, 256, 256, 256, 256, 256,
    256, 256, 256, 256, 256, 256, 256, 256, 256, 256, 256, 256, 256, 256, 256, 256, 256, 256, 256,
    256, 256, 256, 256, 256, 256, 256, 256, 256, 256, 0, 1, 2, 3, 4, 5, 6, 7, 8, 9, 256, 256, 256,
    256, 256, 256, 256, 10, 11, 12, 13, 14, 15, 256, 256, 256, 256, 256, 256, 256, 256, 256, 256,
    256, 256, 256, 256, 256, 256, 256, 256, 256, 256, 256, 256, 256, 256, 256, 256, 10, 11, 12, 13,
    14, 15, 256, 256, 256, 256, 256, 256, 256, 256, 256, 256, 256, 256, 256, 256, 256, 256, 256,
    256, 256, 256, 256, 256, 256, 256, 256, 256, 256, 256, 256, 256, 256, 256, 256, 256, 256, 256,
    256, 256, 256, 256, 256, 256, 256, 256, 256, 256, 256, 256, 256, 256, 256, 256, 256, 256, 256,
    256, 256, 256, 256, 256, 256, 256, 256, 256, 256, 256, 256, 256, 256, 256, 256, 256, 256, 256,
    256, 256, 256, 256, 256, 256, 256, 256, 256, 256, 256, 256, 256, 256, 256, 256, 256, 256, 256,
    256, 256, 256, 256, 256, 256, 256, 256, 256, 256, 256, 256, 256, 256, 256, 256, 256, 256, 256,
    256, 256, 256, 256, 256, 256, 256, 256, 256, 256, 256, 256, 256, 256, 256, 256, 256, 256, 256,
    256, 256, 256, 256, 256, 256, 256, 256, 256, 256, 256, 256, 256, 256, 256, 256, 256, 256, 256,
    256, 256, 256,
];

/// The bytes of these digits, of either case. None where their number is odd, or one of them is no digit.
pub(crate) fn bytes_of(alloc: Global, digits: &[u8]) -> Result<Option<Vec<u8>>, AllocError>
    ensures { IfOk result (λ found. option_map (λ bytes. bytes.items) found ≡ result_ok (decode_of digits.now)) }
{
    if digits.len() % 2 != 0 {
        return Ok(None);
    }
    let mut bytes = vec![in alloc; 0u8; digits.len() / 2]?;
    if fill(bytes.as_mut_slice(), digits) {
        Ok(Some(bytes))
    } else {
        Ok(None)
    }
}

/// The hash of 64 digits, of either case. None where there are more or fewer, or one of them is no digit.
pub(crate) fn hash_of(digits: &[u8]) -> Option<[u8; 32]>
    ensures { result ≡ result_ok (decode_sized digits.now 32) }
{
    if digits.len() != 64 {
        return None;
    }
    let mut hash = [0u8; 32];
    if fill(&mut hash, digits) {
        Some(hash)
    } else {
        None
    }
}

// Fills the slice with the bytes of these digits. Whether all are digits; else the slice holds anything.
fn fill(out: &mut [u8], digits: &[u8]) -> bool
    requires { length digits.now ≡ 2 * length out.old }
    ensures { (if result then Some out.new else None) ≡ result_ok (decode_pairs 0 digits.now) }
{
    'bytes: for i in 0..out.len() {
        match pair(digits[2 * i], digits[2 * i + 1]) {
            Some(byte) => out[i] = byte,
            None => return false,
        }
    }
    true
}

// The byte of two digits. One test serves both: it takes half the time of one for each.
#[inline(always)]
fn pair(high: u8, low: u8) -> Option<u8>
    ensures { (place : ℕ) → result ≡ result_ok (pair_value high low place) }
{
    let byte = value(high) * 16 + value(low);
    if byte > 255 {
        return None;
    }
    Some(byte as u8)
}

// The value of a digit, or 256.
#[inline(always)]
fn value(digit: u8) -> u32
    ensures value { digit_of result ≡ hex_digit_value digit }
    ensures small { (result ≤ 15) ⊎ (result ≡ 256) }
{
    u32::from(VALUES[usize::from(digit)])
}
