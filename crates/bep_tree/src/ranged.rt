//! Passing over a value, and looking at its numbers on the way.
ghost use Rattle.std.specs.Prelude.{◌≡◌, ◌<◌, ◌≤◌, ◌∷◌, Some, None, IsTrue, length};
ghost use Rattle.std.specs.Bool.{MatchBool};
ghost use Rattle.json.specs.Reads.{token_of};
ghost use Rattle.bep_tree.specs.inner.Passed.{after_value, after_items, after_members};

use crate::number::is_in_range;
use json::{Reader, Token};

// Passes the next value, if there is one, its numbers are in range, and its arrays and objects nest at most this deep.
#[cycle(pass)]
#[inline(always)]
fn pass_value(reader: &mut Reader<'_>, depth: usize) -> bool
    ensures passed { MatchBool result (after_value depth reader.old ≡ Some reader.new) (after_value depth reader.old ≡ None) }
    ensures shorter { IsTrue result → length reader.new < length reader.old }
{
    match reader.next() {
        Some(token) => pass_begun(reader, token, depth),
        None => false,
    }
}

// The same of the value that begins with this token.
#[cycle(pass)]
#[inline(always)]
pub(crate) fn pass_begun(reader: &mut Reader<'_>, token: Token<'_>, depth: usize) -> bool
    ensures passed { MatchBool result (after_value depth (token_of token.entry ∷ reader.old) ≡ Some reader.new) (after_value depth (token_of token.entry ∷ reader.old) ≡ None) }
    ensures no_longer { IsTrue result → length reader.new ≤ length reader.old }
{
    match token {
        Token::Number(text) => is_in_range(text),
        Token::String(_) | Token::Bool(_) | Token::Null => true,
        Token::BeginArray => depth > 0 && pass_items(reader, depth - 1),
        Token::BeginObject => depth > 0 && pass_members(reader, depth - 1),
        Token::EndObject | Token::EndArray | Token::Key(_) | Token::Bad => false,
    }
}

// The same of the rest of an array.
#[cycle(pass)]
fn pass_items(reader: &mut Reader<'_>, depth: usize) -> bool
    ensures passed { MatchBool result (after_items depth reader.old ≡ Some reader.new) (after_items depth reader.old ≡ None) }
    ensures shorter { IsTrue result → length reader.new < length reader.old }
{
    while !reader.take_end_array() {
        if !pass_value(reader, depth) {
            return false;
        }
    }
    true
}

// The same of the rest of an object.
#[cycle(pass)]
fn pass_members(reader: &mut Reader<'_>, depth: usize) -> bool
    ensures passed { MatchBool result (after_members depth reader.old ≡ Some reader.new) (after_members depth reader.old ≡ None) }
    ensures shorter { IsTrue result → length reader.new < length reader.old }
{
    loop {
        match reader.next_key() {
            Ok(Some(_)) => {
                if !pass_value(reader, depth) {
                    return false;
                }
            }
            Ok(None) => return true,
            Err(_) => return false,
        }
    }
}
