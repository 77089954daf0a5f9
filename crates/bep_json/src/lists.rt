//! Lists: which values are such, and how a walk along a document's text enters one.
ghost use Rattle.std.specs.Prelude.{◌≡◌, ◌<◌, List, length, None, OnOk, IfErr};
ghost use Rattle.json.specs.Token.{Token as SpecToken};
ghost use Rattle.serde_json.specs.Data.{Data, Members as MembersOf, no_members};
ghost use Rattle.bep_tree.specs.declared.walk.WalkError.TheVariants.{Broken};
ghost use Rattle.bep_tree.specs.Walk.{Stands, StandMembers, Reaches};
ghost use Rattle.bep_json.specs.Lists.{is_list, read_list};
ghost use Rattle.bep_json.specs.Tuples.{EntersList};

use crate::Shaped;
use bep_record::Items;
use bep_tree::{Entered, Reader, WalkError, enter, pass_members};

impl<T: Shaped> Shaped for Items<T> {
    ghost has_shape = { λ version. is_list (T.has_shape version) };

    ghost reads = { λ version. read_list (T.reads version) };
}

/// Takes the bracket of the list that comes next, and tells how deep lists and objects may nest inside it. None where the
/// value that comes next is no list; it is passed then.
pub fn enter_list(reader: &mut Reader<'_>, depth: usize) -> Result<Option<usize>, WalkError>
    ensures value { (d : Data) (rest : List SpecToken) → Stands depth reader.old d rest
        → Reaches result (λ inside. EntersList inside d reader.new rest) }
    ensures shorter { OnOk result (length reader.new < length reader.old) }
    ensures takes_no_memory { IfErr result (λ error. error ≡ Broken) }
{
    match enter(reader, depth)? {
        Entered::List(inside) => Ok(Some(inside)),
        Entered::Object(inside) => passed_object(reader, inside),
        Entered::Leaf(_tree) => Ok(None),
    }
}

// Passes the members of an object, which is no list.
fn passed_object(reader: &mut Reader<'_>, depth: usize) -> Result<Option<usize>, WalkError>
    ensures value { (ms : MembersOf) (rest : List SpecToken) → StandMembers depth reader.old no_members ms rest
        → Reaches result (λ inside. (inside ≡ None) × (reader.new ≡ rest)) }
    ensures shorter { OnOk result (length reader.new < length reader.old) }
    ensures takes_no_memory { IfErr result (λ error. error ≡ Broken) }
{
    pass_members(reader, depth)?;
    Ok(None)
}
