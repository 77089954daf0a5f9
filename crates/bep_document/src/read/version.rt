//! A document's version, in a JSON tree.
ghost use Rattle.std.specs.Prelude.{◌≡◌};
ghost use Rattle.bep_tree.specs.View.{view};
ghost use Rattle.bep_document.specs.read.Checks.{read_doc_version, doc_version};

use bep_json::DocVersion;
use bep_tree::{Tree, as_u64, get};

/// The version of the document: the one with the whole number that it says, 1 or 2.
pub fn doc_version(value: &Tree<'_>) -> Option<DocVersion>
    ensures { result ≡ doc_version (view value.now) }
{
    match get(value, "version") {
        Some(version) => version_with(version),
        None => None,
    }
}

// The version with this number.
fn version_with(value: &Tree<'_>) -> Option<DocVersion>
    ensures { result ≡ read_doc_version (view value.now) }
{
    match as_u64(value) {
        Some(number) => DocVersion::of_number(number),
        None => None,
    }
}
