//! Things that are read as a walk along a document's text comes to them, without a tree of the document.
ghost use Rattle.std.specs.Prelude.{◌≡◌, ◌<◌, List, false, length, Ok, Err, OnOk, IfErr};
ghost use Rattle.json.specs.Token.{Token as SpecToken};
ghost use Rattle.serde_json.specs.Data.{Data, Items as ItemsOf, Members as MembersOf, array, object};
ghost use Rattle.bep_tree.specs.View.{view};
ghost use Rattle.bep_tree.specs.declared.walk.WalkError.TheVariants.{Broken};
ghost use Rattle.bep_tree.specs.Walk.{Stands, Reaches};
ghost use Rattle.bep_json.specs.declared.version.DocVersion.{DocVersion as VersionOf};
ghost use Rattle.bep_json.specs.declared.told.Misread.TheVariants.{Shape};
ghost use Rattle.bep_json.specs.Taking.{judged, EntersLeaf, Takes, TakesOnto};
ghost use Rattle.bep_json.specs.inner.Said.{told_as_read};

use crate::{DocVersion, Misread, ReadError, Readable, Shaped, Told};
use bep_tree::{Entered, Reader, Tree, WalkError, enter, pass_items, pass_members};
use std::alloc::Global;

/// A thing that can be read where a walk along a document's text comes to it.
pub trait Taken: Shaped + Drop + Sized {
    /// Takes the value that comes next, in which lists and objects may nest `depth` deep, and tells which thing it says.
    fn take(
        alloc: Global,
        version: DocVersion,
        reader: &mut Reader<'_>,
        depth: usize,
    ) -> Result<Told<Self>, WalkError>
        ensures value { Takes (Self.has_shape version) (Self.reads version) depth reader.old result reader.new }
        ensures shorter { OnOk result (length reader.new < length reader.old) };

    /// Takes the value that comes next, and puts the thing that it says behind these things; or tells why it says none. A
    /// large thing is best made where it is to stand.
    fn take_onto(
        things: &mut Vec<Self>,
        alloc: Global,
        version: DocVersion,
        reader: &mut Reader<'_>,
        depth: usize,
    ) -> Result<Option<Misread>, WalkError>
        ensures value { TakesOnto (Self.has_shape version) (Self.reads version) depth things.old.items reader.old result things.new.items reader.new }
        ensures shorter { OnOk result (length reader.new < length reader.old) }
    {
        match Self::take(alloc, version, reader, depth)? {
            Ok(thing) => {
                things.push(thing)?;
                Ok(None)
            }
            Err(misread) => Ok(Some(misread)),
        }
    }
}

/// A thing that no list and no object says.
pub trait Leaf: Readable {
    ghost not_list: { (version : VersionOf) (ds : ItemsOf) → Self.has_shape version (array ds) ≡ false };

    ghost not_object: { (version : VersionOf) (ms : MembersOf) → Self.has_shape version (object ms) ≡ false };
}

/// Takes the leaf that comes next: a value that is no list and no object. None where the value that comes next is one; it is
/// passed then.
pub fn enter_leaf<'a>(reader: &mut Reader<'a>, depth: usize) -> Result<Option<Tree<'a>>, WalkError>
    ensures value { (d : Data) (rest : List SpecToken) → Stands depth reader.old d rest
        → Reaches result (λ leaf. EntersLeaf leaf d × (reader.new ≡ rest)) }
    ensures shorter { OnOk result (length reader.new < length reader.old) }
    ensures takes_no_memory { IfErr result (λ error. error ≡ Broken) }
{
    match enter(reader, depth)? {
        Entered::Leaf(tree) => return Ok(Some(tree)),
        Entered::List(inside) => pass_items(reader, inside)?,
        Entered::Object(inside) => pass_members(reader, inside)?,
    }
    Ok(None)
}

/// Takes the value that comes next, which may say such a thing. Memory runs out only where the value has its shape.
pub fn take_leaf<T: Leaf>(
    alloc: Global,
    version: DocVersion,
    reader: &mut Reader<'_>,
    depth: usize,
) -> Result<Told<T>, WalkError>
    ensures value { Takes (T.has_shape version) (T.reads version) depth reader.old result reader.new }
    ensures shorter { OnOk result (length reader.new < length reader.old) }
    ensures other_shape { (d : Data) (rest : List SpecToken) → Stands depth reader.old d rest
        → T.has_shape version d ≡ false → result ≡ Ok (Err Shape) }
{
    match enter_leaf(reader, depth)? {
        Some(tree) => told_of(alloc, version, &tree),
        None => Ok(Err(Misread::Shape)),
    }
}

// What is told of this value. Memory runs out only where it has the thing's shape.
fn told_of<T: Readable>(
    alloc: Global,
    version: DocVersion,
    tree: &Tree<'_>,
) -> Result<Told<T>, WalkError>
    ensures value { Reaches result (λ told. told ≡ judged (T.has_shape version (view tree.now)) (T.reads version (view tree.now))) }
    ensures other_shape { T.has_shape version (view tree.now) ≡ false → result ≡ Ok (Err Shape) }
{
    if !T::has_shape(version, tree) {
        return Ok(Err(Misread::Shape));
    }
    told_as_read(T::read(alloc, version, tree))
}

// What is told of a value that has a thing's shape, by what was read of it. Memory runs out only where the reading says so.
fn told_as_read<T: Drop>(read: Result<T, ReadError>) -> Result<Told<T>, WalkError>
    ensures { result ≡ told_as_read read }
{
    match read {
        Ok(thing) => Ok(Ok(thing)),
        Err(ReadError::Range) => Ok(Err(Misread::Range)),
        Err(ReadError::Memory) => Err(WalkError::Memory),
    }
}
