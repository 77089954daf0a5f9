//! Steps, each written as a list of a word and what belongs to it, which are read as a walk along a document's text comes to
//! them.
ghost use Rattle.std.specs.Prelude.{◌≡◌, ◌<◌, List, length, Err, OnOk, IfErr};
ghost use Rattle.json.specs.Token.{Token as SpecToken};
ghost use Rattle.serde_json.specs.Data.{Items as ItemsOf, array};
ghost use Rattle.bep_tree.specs.declared.walk.WalkError.TheVariants.{Broken};
ghost use Rattle.bep_tree.specs.Walk.{StandItems, Reaches};
ghost use Rattle.bep_json.specs.Taking.{judged};
ghost use Rattle.bep_json.specs.declared.told.Misread.TheVariants.{Shape};
ghost use Rattle.bep_scenario.specs.Steps.{has_resets, has_word, is_step, read_by, read_step, shapes_of};
ghost use Rattle.bep_scenario.specs.inner.Steps.{known, TakesBehind};

use crate::StepParts;
use crate::behind::{
    take_announce, take_ask, take_edit, take_of_name, take_of_pair, take_reset, take_restart,
};
use crate::words::{Word, take_word};
use bep_json::{DocVersion, Misread, Shaped, Taken, Told, enter_list};
use bep_tree::{Reader, WalkError, pass_items};
use std::alloc::Global;

impl Shaped for StepParts {
    ghost has_shape = { is_step };

    ghost reads = { read_step };
}

impl Taken for StepParts {
    fn take(
        alloc: Global,
        version: DocVersion,
        reader: &mut Reader<'_>,
        depth: usize,
    ) -> Result<Told<Self>, WalkError> {
        match enter_list(reader, depth)? {
            Some(inside) => take_step(alloc, version, reader, inside),
            None => Ok(Err(Misread::Shape)),
        }
    }
}

// Takes the items of a list, and tells which step they say.
fn take_step(
    alloc: Global,
    version: DocVersion,
    reader: &mut Reader<'_>,
    depth: usize,
) -> Result<Told<StepParts>, WalkError>
    ensures value { (ds : ItemsOf) (rest : List SpecToken) → StandItems depth reader.old ds rest
        → Reaches result (λ told. (told ≡ judged (is_step version (array ds)) (read_step version (array ds))) × (reader.new ≡ rest)) }
    ensures shorter { OnOk result (length reader.new < length reader.old) }
{
    if reader.take_end_array() {
        return Ok(Err(Misread::Shape));
    }
    let word = take_word(reader, depth)?;
    match known(version, word) {
        Some(word) => take_behind(alloc, version, word, reader, depth),
        None => passed_items(reader, depth),
    }
}

// Passes the items that are left of a list, which is no step.
fn passed_items(reader: &mut Reader<'_>, depth: usize) -> Result<Told<StepParts>, WalkError>
    ensures value { (ds : ItemsOf) (rest : List SpecToken) → StandItems depth reader.old ds rest
        → Reaches result (λ told. (told ≡ Err Shape) × (reader.new ≡ rest)) }
    ensures shorter { OnOk result (length reader.new < length reader.old) }
    ensures takes_no_memory { IfErr result (λ error. error ≡ Broken) }
{
    pass_items(reader, depth)?;
    Ok(Err(Misread::Shape))
}

// The word, if documents of this version have it.
fn known(version: DocVersion, word: Option<Word>) -> Option<Word>
    ensures { result ≡ known version word }
{
    let word = word?;
    if has_word(version, word) {
        Some(word)
    } else {
        None
    }
}

// Whether documents of this version have the word.
fn has_word(version: DocVersion, word: Word) -> bool
    ensures { result ≡ has_word version word }
{
    match word {
        Word::Edit => true,
        Word::OfName(_) => true,
        Word::OfPair(_) => true,
        Word::Announce => true,
        Word::Ask => true,
        Word::Restart => true,
        Word::Reset => has_resets(version),
    }
}

// Whether documents of this version have index resets.
fn has_resets(version: DocVersion) -> bool
    ensures { result ≡ has_resets version }
{
    match version {
        DocVersion::One => false,
        DocVersion::Two => true,
    }
}

// Takes the items behind this word, and tells which step they say with it.
fn take_behind(
    alloc: Global,
    version: DocVersion,
    word: Word,
    reader: &mut Reader<'_>,
    depth: usize,
) -> Result<Told<StepParts>, WalkError>
    ensures value { TakesBehind (shapes_of word) (read_by version word) depth reader.old result reader.new }
    ensures shorter { OnOk result (length reader.new < length reader.old) }
{
    match word {
        Word::Edit => take_edit(alloc, version, reader, depth),
        Word::OfName(word) => take_of_name(alloc, version, word, reader, depth),
        Word::OfPair(word) => take_of_pair(alloc, version, word, reader, depth),
        Word::Announce => take_announce(alloc, version, reader, depth),
        Word::Ask => take_ask(alloc, version, reader, depth),
        Word::Restart => take_restart(alloc, version, reader, depth),
        Word::Reset => take_reset(alloc, version, reader, depth),
    }
}
