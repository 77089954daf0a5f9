//! Objects, whose members are read as a walk along a document's text comes to them.
ghost use Rattle.std.specs.Prelude.{◌≡◌, ◌<◌, ◌≤◌, ℕ, List, Option, None, Some, true, false, length, OnOk, IfErr, IfOk};
ghost use Rattle.std.specs.Bool.{OnTrue};
ghost use Rattle.json.specs.Token.{Token as SpecToken};
ghost use Rattle.serde_json.specs.Data.{Data, Items as ItemsOf, Members as MembersOf, no_members, object};
ghost use Rattle.bep_tree.specs.declared.walk.WalkError.TheVariants.{Broken};
ghost use Rattle.bep_tree.specs.Walk.{Stands, StandItems, StandMembers, Reaches};
ghost use Rattle.bep_json.specs.declared.version.DocVersion.{DocVersion as VersionOf};
ghost use Rattle.bep_json.specs.Taking.{judged, TakesMember, Fills};
ghost use Rattle.bep_json.specs.inner.Filled.{AreFilled};

use crate::{DocVersion, Leaf, Taken, Told, take_leaf};
use bep_tree::{Entered, Reader, WalkError, enter, next_key, pass, pass_items, pass_members};
use std::alloc::Global;

/// What is told so far of the members of an object. A member that comes again takes the place of the one before.
pub trait Slots: Drop + Sized {
    /// The names of the members.
    ghost names: { List (List ℕ) };

    /// What is told of members in a document of a version, by what stands at each name.
    ghost known: { VersionOf → (List ℕ → Option Data) → Self };

    /// What is told of no members.
    fn none() -> Self
        ensures { (version : VersionOf) → result ≡ known version (λ _. None) };

    /// Takes the value of the member of this name, which comes next, and keeps what is told of it. False where no member
    /// has this name; nothing is taken then.
    fn take(
        &mut self,
        alloc: Global,
        version: DocVersion,
        key: &str,
        reader: &mut Reader<'_>,
        depth: usize,
    ) -> Result<bool, WalkError>
        ensures value { TakesMember names (known version) depth key.now self.old reader.old result self.new reader.new }
        ensures no_longer { OnOk result (length reader.new ≤ length reader.old) };
}

/// Takes the value that comes next, and tells of its members. None where it is no object, or has a member of another name.
pub fn take_object<S: Slots>(
    alloc: Global,
    version: DocVersion,
    reader: &mut Reader<'_>,
    depth: usize,
) -> Result<Option<S>, WalkError>
    ensures value { (d : Data) (rest : List SpecToken) → Stands depth reader.old d rest
        → Reaches result (λ slots. Fills S.names (S.known version) slots d × (reader.new ≡ rest)) }
    ensures shorter { OnOk result (length reader.new < length reader.old) }
{
    let mut slots = S::none();
    if fill_object(&mut slots, alloc, version, reader, depth)? {
        Ok(Some(slots))
    } else {
        Ok(None)
    }
}

// Takes the value that comes next, and keeps in these slots what is told of its members. False where it is no object, or has
// a member of another name.
pub(crate) fn fill_object<S: Slots>(
    slots: &mut S,
    alloc: Global,
    version: DocVersion,
    reader: &mut Reader<'_>,
    depth: usize,
) -> Result<bool, WalkError>
    ensures value { (d : Data) (rest : List SpecToken) → slots.old ≡ S.known version (λ _. None) → Stands depth reader.old d rest
        → Reaches result (λ filled. AreFilled S.names (S.known version) filled slots.new d × (reader.new ≡ rest)) }
    ensures shorter { OnOk result (length reader.new < length reader.old) }
{
    match enter(reader, depth)? {
        Entered::Object(inside) => fill_members(slots, alloc, version, reader, inside),
        Entered::List(inside) => passed_list(reader, inside),
        Entered::Leaf(_tree) => Ok(false),
    }
}

// Passes the items that are left of a list, which has no members.
fn passed_list(reader: &mut Reader<'_>, depth: usize) -> Result<bool, WalkError>
    ensures value { (ds : ItemsOf) (rest : List SpecToken) → StandItems depth reader.old ds rest
        → Reaches result (λ filled. (filled ≡ false) × (reader.new ≡ rest)) }
    ensures shorter { OnOk result (length reader.new < length reader.old) }
    ensures takes_no_memory { IfErr result (λ error. error ≡ Broken) }
{
    pass_items(reader, depth)?;
    Ok(false)
}

// Takes the members of an object that are still to come, and keeps in these slots what is told of each.
fn fill_members<S: Slots>(
    slots: &mut S,
    alloc: Global,
    version: DocVersion,
    reader: &mut Reader<'_>,
    depth: usize,
) -> Result<bool, WalkError>
    ensures value { (ms : MembersOf) (rest : List SpecToken) → slots.old ≡ S.known version (λ _. None) → StandMembers depth reader.old no_members ms rest
        → Reaches result (λ filled. AreFilled S.names (S.known version) filled slots.new (object ms) × (reader.new ≡ rest)) }
    ensures shorter { OnOk result (length reader.new < length reader.old) }
{
    while let Some(key) = next_key(reader)? {
        if !slots.take(alloc, version, key, reader, depth)? {
            pass(reader, depth)?;
            pass_members(reader, depth)?;
            return Ok(false);
        }
    }
    Ok(true)
}

/// Takes the value that comes next into this slot, where such a thing may stand. True, as `Slots::take` answers of a member
/// that it knows.
pub fn fill<T: Taken>(
    slot: &mut Option<Told<T>>,
    alloc: Global,
    version: DocVersion,
    reader: &mut Reader<'_>,
    depth: usize,
) -> Result<bool, WalkError>
    ensures value { (d : Data) (rest : List SpecToken) → Stands depth reader.old d rest
        → Reaches result (λ filled. (filled ≡ true) × (slot.new ≡ Some (judged (T.has_shape version d) (T.reads version d))) × (reader.new ≡ rest)) }
    ensures no_longer { OnOk result (length reader.new ≤ length reader.old) }
{
    *slot = Some(T::take(alloc, version, reader, depth)?);
    Ok(true)
}

/// Takes the value that comes next into this slot, where such a leaf may stand. True, as of `fill`.
pub fn fill_leaf<T: Leaf>(
    slot: &mut Option<Told<T>>,
    alloc: Global,
    version: DocVersion,
    reader: &mut Reader<'_>,
    depth: usize,
) -> Result<bool, WalkError>
    ensures value { (d : Data) (rest : List SpecToken) → Stands depth reader.old d rest
        → Reaches result (λ filled. (filled ≡ true) × (slot.new ≡ Some (judged (T.has_shape version d) (T.reads version d))) × (reader.new ≡ rest)) }
    ensures no_longer { OnOk result (length reader.new ≤ length reader.old) }
{
    *slot = Some(take_leaf(alloc, version, reader, depth)?);
    Ok(true)
}
