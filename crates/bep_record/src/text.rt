//! What names and targets have in common: UTF-8 without NUL.
ghost use Rattle.std.specs.Prelude.{◌≡◌, ◌≢◌, ◌↔◌, All, IsTrue, MatchOption};
ghost use Rattle.bep_record.specs.Text.{IsPlainText};

use memchr::memchr;
use std::str;

/// Whether no byte is NUL.
pub(crate) fn has_no_nul(bytes: &[u8]) -> bool
    ensures { IsTrue result ↔ All (λ b. b ≢ 0) bytes.now }
{
    memchr(0, bytes).is_none()
}

/// The bytes as a text, `None` where they aren't UTF-8 or have a NUL byte.
pub(crate) fn plain_text(bytes: &[u8]) -> Option<&str>
    ensures { MatchOption result (¬ IsPlainText bytes.now) (λ text. (text.now ≡ bytes.now) × IsPlainText bytes.now) }
{
    if !has_no_nul(bytes) {
        return None;
    }
    match str::from_utf8(bytes) {
        Ok(text) => Some(text),
        Err(_) => None,
    }
}
