//! Lists, whose items are read as a walk along a document's text comes to them.
ghost use Rattle.std.specs.Prelude.{◌≡◌, ◌<◌, List, [], ◌∷◌, ◌++◌, length, Ok, OnOk, IfOk};
ghost use Rattle.json.specs.Token.{Token as SpecToken};
ghost use Rattle.serde_json.specs.Data.{Items as ItemsOf};
ghost use Rattle.bep_tree.specs.Walk.{StandItems, Reaches};
ghost use Rattle.bep_json.specs.Lists.{have_shape, is_list, read_items, read_list};
ghost use Rattle.bep_json.specs.Taking.{judged, Takes};
ghost use Rattle.bep_json.specs.inner.Joined.{so_far, worse};

use crate::{DocVersion, Misread, Taken, Told, enter_list};
use bep_record::Items;
use bep_tree::{Reader, WalkError};
use std::alloc::Global;

impl<T: Taken> Taken for Items<T> {
    fn take(
        alloc: Global,
        version: DocVersion,
        reader: &mut Reader<'_>,
        depth: usize,
    ) -> Result<Told<Self>, WalkError> {
        take_list(alloc, version, reader, depth)
    }
}

// Takes the value that comes next, which may be a list, and tells which things its items say.
fn take_list<T: Taken>(
    alloc: Global,
    version: DocVersion,
    reader: &mut Reader<'_>,
    depth: usize,
) -> Result<Told<Items<T>>, WalkError>
    ensures value { Takes (is_list (T.has_shape version)) (read_list (T.reads version)) depth reader.old result reader.new }
    ensures shorter { OnOk result (length reader.new < length reader.old) }
{
    match enter_list(reader, depth)? {
        Some(inside) => take_items(alloc, version, reader, inside),
        None => Ok(Err(Misread::Shape)),
    }
}

// Takes the items of a list that are still to come, and tells which things they say.
fn take_items<T: Taken>(
    alloc: Global,
    version: DocVersion,
    reader: &mut Reader<'_>,
    depth: usize,
) -> Result<Told<Items<T>>, WalkError>
    ensures value { (ds : ItemsOf) (rest : List SpecToken) → StandItems depth reader.old ds rest
        → Reaches result (λ told. (told ≡ judged (have_shape (T.has_shape version) ds) (read_items (T.reads version) ds)) × (reader.new ≡ rest)) }
    ensures shorter { OnOk result (length reader.new < length reader.old) }
{
    let mut things = Vec::new(alloc);
    let mut misread = None;
    while !reader.take_end_array() {
        let next = T::take_onto(&mut things, alloc, version, reader, depth)?;
        misread = worse(misread, next);
    }
    Ok(told_of(misread, things))
}

// What is told of these things.
fn told_of<T: Drop>(misread: Option<Misread>, things: Vec<T>) -> Told<Items<T>>
    ensures { result ≡ so_far misread things.items }
{
    match misread {
        None => Ok(Items::new(things)),
        Some(misread) => Err(misread),
    }
}

// Why a thing or the next one was misread, if one was. Another shape is told before a range.
fn worse(misread: Option<Misread>, next: Option<Misread>) -> Option<Misread>
    ensures { result ≡ worse misread next }
{
    match misread {
        None => next,
        Some(Misread::Shape) => Some(Misread::Shape),
        Some(Misread::Range) => match next {
            None => Some(Misread::Range),
            Some(next) => Some(next),
        },
    }
}
