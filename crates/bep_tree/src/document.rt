//! Whether bytes are a document, without a tree.
ghost use Rattle.std.specs.Prelude.{◌≡◌, None, Some, IfOk, MatchOption};
ghost use Rattle.serde_json.specs.Data.{Data};
ghost use Rattle.bep_tree.specs.Number.{number_at};
ghost use Rattle.bep_tree.specs.Read.{tree_of};

use crate::Scratch;
use crate::numbered::number_in;
use json::Reader;
use std::alloc::AllocError;

/// The text of these bytes, if `serde_json` reads a value in them: if `read_tree` makes a tree of them. This makes none.
/// With the text comes the whole number from 0 at the value's last member of this name; none where there is no such member, or
/// no such number stands there.
pub fn json_text<'a>(
    bytes: &'a [u8],
    name: &str,
    scratch: &mut Scratch,
) -> Result<Option<(&'a str, Option<u64>)>, AllocError>
    ensures { IfOk result (λ found. MatchOption found (tree_of bytes.now ≡ None)
        (λ said. (said.0.now ≡ bytes.now) × (d : Data) × (tree_of bytes.now ≡ Some d) × (said.1 ≡ number_at name.now d))) }
{
    let Ok(text) = std::str::from_utf8(bytes) else {
        return Ok(None);
    };
    match number_in_text(text, name, scratch)? {
        Some(number) => Ok(Some((text, number))),
        None => Ok(None),
    }
}

// The whole number at the member of this name in the value that is this text, if it is one.
fn number_in_text(
    text: &str,
    name: &str,
    scratch: &mut Scratch,
) -> Result<Option<Option<u64>>, AllocError>
    ensures { IfOk result (λ found. MatchOption found (tree_of text.now ≡ None)
        (λ number. (d : Data) × (tree_of text.now ≡ Some d) × (number ≡ number_at name.now d))) }
{
    let mut reader = Reader::new(text, scratch)?;
    let Some(number) = number_in(&mut reader, name) else {
        return Ok(None);
    };
    match reader.next() {
        None => Ok(Some(number)),
        Some(_) => Ok(None),
    }
}
