//! `bep_tree` and `bep_json`: walks along a text.
ghost use Rattle.std.specs.Prelude.{[], ◌∷◌, codes};
ghost use Rattle.bep_json.specs.Numbers.{is_whole, read_number};
ghost use Rattle.bep_json.specs.Taking.{slot};

use bep_json::{
    DocVersion, Slots, Taken, Told, Tuple, Whole, enter_leaf, enter_list, fill, fill_leaf,
    take_leaf, take_object,
};
use bep_record::Items;
use bep_tree::{
    Entered, MAX_DEPTH, Reader, Scratch, WalkError, as_u64, enter, next_key, pass, pass_items,
    pass_members,
};
use std::alloc::Global;

type Digit = Whole<0, 9>;

type Pairs = Items<(u64, u64)>;

// What is told of an object that has a size alone.
#[derive(Drop)]
struct Sized {
    size: Option<Told<Digit>>,
}

impl Slots for Sized {
    ghost names = { codes "size" ∷ [] };

    ghost known = { λ _ look. record { size = slot is_whole (read_number 0 9) (look (codes "size")) } };

    fn none() -> Self {
        Sized { size: None }
    }

    fn take(
        &mut self,
        alloc: Global,
        version: DocVersion,
        key: &str,
        reader: &mut Reader<'_>,
        depth: usize,
    ) -> Result<bool, WalkError> {
        match key {
            "size" => fill_leaf(&mut self.size, alloc, version, reader, depth),
            _ => Ok(false),
        }
    }
}

fn digit(told: Option<Told<Digit>>) -> Option<u64> {
    Some(told?.ok()?.number())
}

// The keys of the object that the text is, its values passed each in another way.
fn passed(alloc: Global) -> Option<[bool; 4]> {
    let mut scratch = Scratch::new(alloc);
    let mut reader = Reader::new(r#"{"a":[1],"b":[2,3],"c":{"d":4}}"#, &mut scratch).ok()?;
    let Entered::Object(inside) = enter(&mut reader, 2).ok()? else {
        return None;
    };
    let first = next_key(&mut reader).ok()? == Some("a") && pass(&mut reader, inside).is_ok();
    let second = next_key(&mut reader).ok()? == Some("b") && is_list(&mut reader, inside)?;
    let third = next_key(&mut reader).ok()? == Some("c") && is_object(&mut reader, inside)?;
    Some([first, second, third, next_key(&mut reader).ok()?.is_none()])
}

fn is_list(reader: &mut Reader<'_>, depth: usize) -> Option<bool> {
    match enter(reader, depth).ok()? {
        Entered::List(inside) => Some(pass_items(reader, inside).is_ok()),
        _ => None,
    }
}

fn is_object(reader: &mut Reader<'_>, depth: usize) -> Option<bool> {
    match enter(reader, depth).ok()? {
        Entered::Object(inside) => Some(pass_members(reader, inside).is_ok()),
        _ => None,
    }
}

fn object(alloc: Global) -> Option<u64> {
    let mut scratch = Scratch::new(alloc);
    let mut reader = Reader::new(r#"{"size":4,"size":5}"#, &mut scratch).ok()?;
    digit(
        take_object::<Sized>(alloc, DocVersion::One, &mut reader, MAX_DEPTH)
            .ok()??
            .size,
    )
}

// The number that the text is, as a leaf of a tree.
fn entered(alloc: Global) -> Option<u64> {
    let mut scratch = Scratch::new(alloc);
    let mut reader = Reader::new("5", &mut scratch).ok()?;
    as_u64(&enter_leaf(&mut reader, MAX_DEPTH).ok()??)
}

fn leaf(alloc: Global) -> Option<u64> {
    let mut scratch = Scratch::new(alloc);
    let mut reader = Reader::new("5", &mut scratch).ok()?;
    digit(take_leaf(alloc, DocVersion::One, &mut reader, MAX_DEPTH).ok())
}

fn size(slots: &mut Sized, alloc: Global, reader: &mut Reader<'_>) -> Option<bool> {
    slots
        .take(alloc, DocVersion::One, "size", reader, MAX_DEPTH)
        .ok()
}

fn slots(alloc: Global) -> Option<u64> {
    let mut scratch = Scratch::new(alloc);
    let mut reader = Reader::new("5", &mut scratch).ok()?;
    let mut slots = Sized::none();
    let taken = size(&mut slots, alloc, &mut reader)?;
    if taken { digit(slots.size) } else { None }
}

fn pairs(alloc: Global) -> Option<bool> {
    let mut scratch = Scratch::new(alloc);
    let mut reader = Reader::new("[[1,2],[3,4]]", &mut scratch).ok()?;
    let told: Told<Pairs> = Items::take(alloc, DocVersion::One, &mut reader, MAX_DEPTH).ok()?;
    Some(told.ok()?.as_slice() == [(1, 2), (3, 4)].as_slice())
}

// The items of the list that the text is, each at its place.
fn tuple(alloc: Global) -> Option<(u64, u64)> {
    let mut scratch = Scratch::new(alloc);
    let mut reader = Reader::new("[5,6]", &mut scratch).ok()?;
    let inside = enter_list(&mut reader, MAX_DEPTH).ok()??;
    let told: Told<(Digit, (Digit, ()))> = Tuple::take_items(
        alloc,
        DocVersion::One,
        &mut reader,
        inside,
    ).ok()?;
    let (first, (second, ())) = told.ok()?;
    Some((first.number(), second.number()))
}

fn onto(alloc: Global) -> Option<bool> {
    let mut scratch = Scratch::new(alloc);
    let mut reader = Reader::new("[[1,2]]", &mut scratch).ok()?;
    let mut lists: Vec<Pairs> = Vec::new(alloc);
    let misread = Items::take_onto(
        &mut lists,
        alloc,
        DocVersion::One,
        &mut reader,
        MAX_DEPTH,
    ).ok()?;
    Some(misread.is_none() && lists.len() == 1)
}

fn filled(alloc: Global) -> Option<bool> {
    let mut scratch = Scratch::new(alloc);
    let mut reader = Reader::new("[[1,2]]", &mut scratch).ok()?;
    let mut slot = None;
    fill::<Pairs>(&mut slot, alloc, DocVersion::One, &mut reader, MAX_DEPTH).ok()?;
    Some(slot?.ok()?.as_slice() == [(1, 2)].as_slice())
}

#[test]
fn walks_find_memory(rt: HostRuntime) {
    let alloc = rt.alloc();
    assert!(rt; passed(alloc) == Some([true; 4]));
    assert!(rt; object(alloc) == Some(5));
    assert!(rt; entered(alloc) == Some(5));
    assert!(rt; leaf(alloc) == Some(5));
    assert!(rt; slots(alloc) == Some(5));
    assert!(rt; pairs(alloc) == Some(true));
    assert!(rt; onto(alloc) == Some(true));
    assert!(rt; filled(alloc) == Some(true));
    assert!(rt; tuple(alloc) == Some((5, 6)));
}
