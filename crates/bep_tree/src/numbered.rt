//! Passing over the value of a document, and keeping the whole number at one of its members.
ghost use Rattle.std.specs.Prelude.{◌≡◌, ◌<◌, ◌∷◌, None, Some, length, MatchOption, IfSome};
ghost use Rattle.json.specs.Json.{members, value};
ghost use Rattle.json.specs.Reads.{token_of};
ghost use Rattle.serde_json.specs.Read.{max_depth};
ghost use Rattle.bep_tree.specs.inner.Numbered.{whole_begun, numbered, found_among, found_in};
ghost use Rattle.bep_tree.specs.inner.Passed.{after_value};

use crate::number::unsigned_in;
use crate::ranged::pass_begun;
use crate::read::MAX_DEPTH;
use json::{Reader, Token};

// Passes the next value, and tells the whole number at its last member of this name, if there is one. None where there is
// no value, a number is out of range, or arrays and objects nest too deep.
pub(crate) fn number_in(reader: &mut Reader<'_>, name: &str) -> Option<Option<u64>>
    ensures { MatchOption result (found_in name.now (value max_depth reader.old) ≡ None) (λ number. found_in name.now (value max_depth reader.old) ≡ Some (number, reader.new)) }
{
    let token = reader.next()?;
    match token {
        Token::BeginObject => number_among(reader, MAX_DEPTH - 1, name),
        _ => no_number_in(reader, token),
    }
}

// Passes the value that begins with this token. It is no object, so no number stands at a member.
fn no_number_in(reader: &mut Reader<'_>, token: Token<'_>) -> Option<Option<u64>>
    ensures { MatchOption result (after_value max_depth (token_of token.entry ∷ reader.old) ≡ None) (λ number. (number ≡ None) × (after_value max_depth (token_of token.entry ∷ reader.old) ≡ Some reader.new)) }
{
    if pass_begun(reader, token, MAX_DEPTH) {
        Some(None)
    } else {
        None
    }
}

// Passes the rest of an object, and tells the whole number at its last member of this name, as `number_in` does.
fn number_among(reader: &mut Reader<'_>, depth: usize, name: &str) -> Option<Option<u64>>
    ensures { MatchOption result (found_among name.now None (members (value depth) (length reader.old) reader.old) ≡ None) (λ number. found_among name.now None (members (value depth) (length reader.old) reader.old) ≡ Some (number, reader.new)) }
{
    let mut found = None;
    loop {
        match reader.next_key() {
            Ok(Some(key)) => {
                let number = pass_number(reader, depth)?;
                if key == name {
                    found = number;
                }
            }
            Ok(None) => return Some(found),
            Err(_) => return None,
        }
    }
}

// Passes the next value, and tells the whole number that it is, if it is one. None as of `number_in`.
fn pass_number(reader: &mut Reader<'_>, depth: usize) -> Option<Option<u64>>
    ensures value { MatchOption result (numbered (value depth reader.old) ≡ None) (λ number. numbered (value depth reader.old) ≡ Some (number, reader.new)) }
    ensures shorter { IfSome result (λ _. length reader.new < length reader.old) }
{
    let token = reader.next()?;
    let number = whole_begun(token);
    if pass_begun(reader, token, depth) {
        Some(number)
    } else {
        None
    }
}

// The whole number that a value is which begins with this token.
fn whole_begun(token: Token<'_>) -> Option<u64>
    ensures { result ≡ whole_begun (token_of token.entry) }
{
    match token {
        Token::Number(text) => unsigned_in(text),
        _ => None,
    }
}
