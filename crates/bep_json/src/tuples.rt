//! Tuples: what the items of a list say, each at its place, as a walk along a document's text comes to them.
ghost use Rattle.std.specs.Prelude.{◌≡◌, ◌<◌, Bool, List, Option, length, OnOk};
ghost use Rattle.json.specs.Token.{Token as SpecToken};
ghost use Rattle.serde_json.specs.Data.{Items as ItemsOf};
ghost use Rattle.bep_tree.specs.Walk.{StandItems, Reaches};
ghost use Rattle.bep_json.specs.declared.version.DocVersion.{DocVersion as VersionOf};
ghost use Rattle.bep_json.specs.Taking.{judged};
ghost use Rattle.bep_json.specs.Tuples.{are_none, are_first, read_none, read_first};

use crate::{DocVersion, Misread, Taken, Told, both};
use bep_tree::{Reader, WalkError, pass_items};
use std::alloc::Global;

/// What the items of a list say: a thing, and what those behind it say; or nothing, where there are no items.
///
///     let told = <(DeviceId, (FolderName, ()))>::take_items(alloc, version, &mut reader, depth)?;
pub trait Tuple: Drop + Sized {
    /// Which items of a document of a version have the shapes of these things, one each.
    ghost have_shapes: { VersionOf → ItemsOf → Bool };

    /// Which things the items stand for, where each of their parts is inside its range.
    ghost reads: { VersionOf → ItemsOf → Option Self };

    /// Takes the items that are left of a list, and its bracket, and tells which things they say.
    fn take_items(
        alloc: Global,
        version: DocVersion,
        reader: &mut Reader<'_>,
        depth: usize,
    ) -> Result<Told<Self>, WalkError>
        ensures value { (ds : ItemsOf) (rest : List SpecToken) → StandItems depth reader.old ds rest
            → Reaches result (λ told. (told ≡ judged (Self.have_shapes version ds) (Self.reads version ds)) × (reader.new ≡ rest)) }
        ensures shorter { OnOk result (length reader.new < length reader.old) };
}

impl Tuple for () {
    ghost have_shapes = { λ _. are_none };

    ghost reads = { λ _. read_none };

    fn take_items(
        _alloc: Global,
        _version: DocVersion,
        reader: &mut Reader<'_>,
        depth: usize,
    ) -> Result<Told<Self>, WalkError> {
        if reader.take_end_array() {
            return Ok(Ok(()));
        }
        pass_items(reader, depth)?;
        Ok(Err(Misread::Shape))
    }
}

impl<T: Taken, R: Tuple> Tuple for (T, R) {
    ghost have_shapes = { λ version. are_first (T.has_shape version) (R.have_shapes version) };

    ghost reads = { λ version. read_first (T.reads version) (R.reads version) };

    fn take_items(
        alloc: Global,
        version: DocVersion,
        reader: &mut Reader<'_>,
        depth: usize,
    ) -> Result<Told<Self>, WalkError> {
        if reader.take_end_array() {
            return Ok(Err(Misread::Shape));
        }
        let first = T::take(alloc, version, reader, depth)?;
        let others = R::take_items(alloc, version, reader, depth)?;
        Ok(both(first, others))
    }
}
