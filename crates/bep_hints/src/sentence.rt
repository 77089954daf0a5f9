//! What is said of a fault.
ghost use Rattle.std.specs.Prelude.{◌≡◌, IfErr, IfOk};

use crate::breaks::{said_of_break, said_of_bytes};
use crate::members::Holds::Single;
use crate::members::{Expected, Sort};
use crate::survey::{Survey, look_over};
use crate::walk::{Flaw, LEVELS, Step, look};
use crate::wrong::Wrong;
use bep_document::{MAX_BYTES, doc_version};
use bep_lines::{Piece, push_pieces};
use bep_record::MAX_DEVICES;
use bep_tree::{Scratch, Tree, TreeError, as_array, as_u64, get, read_tree};
use std::alloc::{AllocError, Global};

// The most bytes of memory that a tree may take for each byte of its document, and that any tree may take, if a hint is looked
// for in it.
const MOST_FOR_EACH: usize = 16;

const MOST_FOR_ANY: usize = 4194304;

/// A sentence for a person on where a document is at fault.
#[derive(Drop)]
pub struct Hint {
    /// Which document was expected.
    pub expected: Expected,
    sentence: String,
}

impl Hint {
    /// The sentence, without a line's end.
    pub fn sentence(&self) -> &str {
        self.sentence.as_str()
    }
}

/// That it was looked for where a document is at fault, and no hint was found. Only `hint_at` makes one.
#[derive(Clone, Copy)]
pub struct NotFound {
    /// Which document was expected.
    pub expected: Expected,
    why: Why,
}

// Why no hint was found.
#[derive(Clone, Copy)]
enum Why {
    // There was nothing to say.
    Nothing,
    // Memory ran out.
    Memory,
}

impl NotFound {
    /// The sentence that says so, without a line's end.
    pub fn sentence(&self) -> &'static str {
        match self.why {
            Why::Nothing => "where the document is at fault wasn't found",
            Why::Memory => "where the document is at fault wasn't found, for want of memory",
        }
    }
}

/// A sentence on where these bytes are at fault as such a document: where they aren't JSON, or which member is missing,
/// isn't known or isn't what it should be. `NotFound` where there is nothing to say of that, or no memory.
pub fn hint_at(alloc: Global, bytes: &[u8], expected: Expected) -> Result<Hint, NotFound>
    ensures found { IfOk result (λ hint. hint.expected ≡ expected) }
    ensures not_found { IfErr result (λ missed. missed.expected ≡ expected) }
{
    match sentence_of(alloc, bytes, expected) {
        Ok(sentence) => Ok(Hint { expected, sentence }),
        Err(why) => Err(NotFound { expected, why }),
    }
}

// The sentence, or why there is none.
fn sentence_of(alloc: Global, bytes: &[u8], expected: Expected) -> Result<String, Why> {
    let Ok(said) = said_of(alloc, bytes, expected) else {
        return Err(Why::Memory);
    };
    if said.is_empty() {
        return Err(Why::Nothing);
    }
    match String::from_utf8(said) {
        Ok(sentence) => Ok(sentence),
        Err(_) => Err(Why::Nothing),
    }
}

// The sentence, empty where there is none.
fn said_of(alloc: Global, bytes: &[u8], expected: Expected) -> Result<Vec<u8>, AllocError> {
    if bytes.len() > MAX_BYTES {
        let most = Piece::Number(MAX_BYTES as u64);
        return said(
            alloc,
            &[
                Piece::Text("the document has more than "),
                most,
                Piece::Text(" bytes"),
            ],
        );
    }
    let Ok(text) = std::str::from_utf8(bytes) else {
        return said_of_bytes(alloc, bytes);
    };
    match look_over(alloc, text)? {
        Survey::Broken(place, how) => said_of_break(alloc, text, place, how),
        Survey::Whole(memory) if memory > most_memory(bytes.len()) => {
            let why = "the document has too many small values to be looked through for its fault";
            said(alloc, &[Piece::Text(why)])
        }
        Survey::Whole(_) => said_of_json(alloc, bytes, expected),
    }
}

// The most bytes of memory that the tree of a document of so many bytes may take.
fn most_memory(length: usize) -> usize {
    length.saturating_mul(MOST_FOR_EACH).max(MOST_FOR_ANY)
}

// What is at fault in JSON.
fn said_of_json(alloc: Global, bytes: &[u8], expected: Expected) -> Result<Vec<u8>, AllocError> {
    let mut scratch = Scratch::new(alloc);
    match read_tree(alloc, bytes, &mut scratch) {
        Ok(tree) => said_of_tree(alloc, &tree, expected),
        Err(TreeError::NotJson) => Ok(Vec::new(alloc)),
        Err(TreeError::Memory) => Err(AllocError),
    }
}

// What is at fault in a tree.
fn said_of_tree(alloc: Global, tree: &Tree<'_>, expected: Expected) -> Result<Vec<u8>, AllocError> {
    let Some(version) = doc_version(tree) else {
        let what = "the document should be an object whose member version is 1 or 2";
        return said(alloc, &[Piece::Text(what)]);
    };
    let sort = match expected {
        Expected::Check => Sort::CheckDocument,
        Expected::Cut => Sort::CutDocument,
        Expected::Scenario => Sort::Scenario,
    };
    for flaw in [Flaw::Shape, Flaw::Range] {
        let mut way = Vec::new(alloc);
        if let Some(wrong) = look(alloc, version, flaw, &mut way, tree, Single(sort), LEVELS)? {
            return said_at(alloc, way.as_slice(), wrong);
        }
    }
    match expected {
        Expected::Check | Expected::Cut => said_of_devices(alloc, get(tree, "cut"), "cut.folders"),
        Expected::Scenario => said_of_devices(alloc, Some(tree), "folders"),
    }
}

// What is wrong at the end of this way.
fn said_at(alloc: Global, way: &[Step<'_>], wrong: Wrong) -> Result<Vec<u8>, AllocError> {
    let mut text = Vec::new(alloc);
    let mut before = "";
    for step in way {
        match *step {
            Step::Member(name) => {
                push_pieces(
                    &mut text,
                    &[Piece::Text(before), Piece::Name(name.as_bytes())],
                )?;
            }
            Step::Item(place) => {
                let place = Piece::Number(place as u64);
                push_pieces(&mut text, &[Piece::Text("["), place, Piece::Text("]")])?;
            }
        }
        before = ".";
    }
    if way.is_empty() {
        push_pieces(&mut text, &[Piece::Text("the document")])?;
    }
    push_wrong(&mut text, wrong)?;
    Ok(text)
}

fn push_wrong(text: &mut Vec<u8>, wrong: Wrong) -> Result<(), AllocError> {
    match wrong {
        Wrong::Expected(what) => {
            push_pieces(text, &[Piece::Text(": expected "), Piece::Text(what)])
        }
        Wrong::TooLong(most) => {
            let most = Piece::Number(most as u64);
            push_pieces(text, &[Piece::Text(": expected a list of at most "), most])
        }
        Wrong::Missing(name) => {
            let (name, end) = (Piece::Text(name), Piece::Text(" is missing"));
            push_pieces(text, &[Piece::Text(": the member "), name, end])
        }
        Wrong::Unknown => push_pieces(text, &[Piece::Text(": no such member is known here")]),
        Wrong::TwoBodies => {
            push_pieces(
                text,
                &[Piece::Text(": either text or hex is expected, not both")],
            )
        }
    }
}

// That too many devices share the folders of this value, if they do.
fn said_of_devices(
    alloc: Global,
    value: Option<&Tree<'_>>,
    way: &str,
) -> Result<Vec<u8>, AllocError> {
    let Some(value) = value else {
        return Ok(Vec::new(alloc));
    };
    let known = devices_in(alloc, value)?;
    if known.len() <= MAX_DEVICES {
        return Ok(Vec::new(alloc));
    }
    let count = Piece::Number(known.len() as u64);
    said(
        alloc,
        &[
            Piece::Text(way),
            Piece::Text(": "),
            count,
            Piece::Text(" different devices share the folders, at most 16 may"),
        ],
    )
}

// The devices that share the folders of this value, each once.
fn devices_in(alloc: Global, value: &Tree<'_>) -> Result<Vec<u64>, AllocError> {
    let mut known = Vec::new(alloc);
    if let Some(folders) = items_in(value, "folders") {
        for folder in folders {
            add_devices(&mut known, folder)?;
        }
    }
    Ok(known)
}

// Adds the devices that share this folder and aren't known yet.
fn add_devices(known: &mut Vec<u64>, folder: &Tree<'_>) -> Result<(), AllocError> {
    let Some(shares) = items_in(folder, "devices") else {
        return Ok(());
    };
    for share in shares {
        if let Some(device) = number_in(share, "device") {
            if !known.as_slice().contains(&device) {
                known.push(device)?;
            }
        }
    }
    Ok(())
}

// The items of the list at this member, if there is one.
fn items_in<'t, 'a>(value: &'t Tree<'a>, name: &str) -> Option<&'t [Tree<'a>]> {
    match get(value, name) {
        Some(list) => as_array(list),
        None => None,
    }
}

fn number_in(value: &Tree<'_>, name: &str) -> Option<u64> {
    match get(value, name) {
        Some(number) => as_u64(number),
        None => None,
    }
}

/// The text of these pieces.
pub(crate) fn said(alloc: Global, pieces: &[Piece<'_>]) -> Result<Vec<u8>, AllocError> {
    let mut text = Vec::new(alloc);
    push_pieces(&mut text, pieces)?;
    Ok(text)
}
