//! A cut as a JSON tree: the calls that a cut has beside its own.
ghost use Rattle.std.specs.Prelude.{◌≡◌, ◌≤◌, Some, IfOk, OnOk};
ghost use Rattle.serde_json.specs.Data.{Data, depth};
ghost use Rattle.serde_json.specs.Read.{read, max_depth};
ghost use Rattle.serde_json.specs.View.{view};
ghost use Rattle.bep_json.specs.declared.version.DocVersion.{DocVersion as VersionOf};
ghost use Rattle.bep_document.specs.Faultless.{IsFaultless};
ghost use Rattle.bep_document.specs.Reading.{Answers, Reading, Read, reading_of_cut};
ghost use Rattle.bep_cut_document.specs.Trees.{cut_tree};
ghost use Rattle.bep_cut_document.specs.Room.{HasRoom};
ghost use Rattle.bep_cut_document.specs.Written.{cut_of_tree};

use crate::reading::check_from;
use crate::whole::write_cut;
use bep_document::{
    CheckParts, DocError, faultless_parts_are_read, read_cut_text, readings_are_faultless,
};
use bep_json::{DocVersion, text_of};
use bep_tables::Cut;
use json::Writer;
use serde_json::Value;
use std::alloc::{AllocError, Global};

/// What is read from a JSON tree and written as one. A caller that has it in scope writes `Cut::from_value` and
/// `cut.to_value`: the crate of `Cut` knows of no JSON.
pub trait CutValue: Drop {
    /// What a tree says by itself, read as in documents of a version, or the fault for which it is refused.
    ghost of_tree: { VersionOf → Data → Reading Self };

    /// The tree that is written.
    ghost tree_of: { Self → Data };

    /// Documents of a version have room for it.
    ghost has_room: { VersionOf → Self → Type 0 };

    /// The cut that a tree says by itself, as the member `cut` of a check document of this version does, or the one fault
    /// for which it is refused: `Shape`, `Range`, or the first of those that have a place. `Memory` may come in place of
    /// any answer. That is promised of trees that nest no deeper than 127, as each does that `serde_json` has read and each
    /// of `to_value`. A deeper one is refused too, as `NotJson`, but no contract says so.
    fn from_value(alloc: Global, version: DocVersion, value: &Value) -> Result<Self, DocError>
        ensures { depth (view value.now) ≤ max_depth → Answers result (of_tree version (view value.now)) };

    /// The cut as a tree, with every member, bytes in hexadecimal digits and all lists rising; or want of memory.
    /// `Cut::from_value` of a version reads this tree as the very cut, if its documents have room for that. Those of version
    /// 2 have room for each cut.
    fn to_value(&self, alloc: Global) -> Result<Value, AllocError>
        ensures value { IfOk result (λ v. view v ≡ tree_of self.now) }
        ensures shallow { IfOk result (λ v. depth (view v) ≤ max_depth) }
        ensures read_back { OnOk result ((version : VersionOf) → has_room version self.now → of_tree version (tree_of self.now) ≡ Read self.now) };
}

impl CutValue for Cut {
    ghost of_tree = { cut_of_tree };

    ghost tree_of = { cut_tree };

    ghost has_room = { HasRoom };

    fn from_value(alloc: Global, version: DocVersion, value: &Value) -> Result<Cut, DocError> {
        let parts = parts_of(alloc, version, value)?;
        let (cut, _rows) = check_from(alloc, parts)?;
        Ok(cut)
    }

    fn to_value(&self, alloc: Global) -> Result<Value, AllocError> {
        faultless_parts_are_read();
        let mut out = Writer::new(Vec::new(alloc));
        write_cut(alloc, &mut out, self)?;
        let text = text_of(out);
        let tree = tree_of_text(alloc, text.as_str())?;
        Ok(tree)
    }
}

// The tree that this text reads as, where it reads as one: only memory can be wanting then.
fn tree_of_text(alloc: Global, text: &str) -> Result<Value, AllocError>
    ensures { IfOk result (λ v. read text.now ≡ Some (view v)) }
{
    match Value::from_str(alloc, text) {
        Ok(tree) => Ok(tree),
        Err(_) => Err(AllocError),
    }
}

// What the tree of a cut says, read as in documents of this version. Its text is what is read again.
fn parts_of(alloc: Global, version: DocVersion, value: &Value) -> Result<CheckParts, DocError>
    ensures faultless { IfOk result IsFaultless }
    ensures says { depth (view value.now) ≤ max_depth → Answers result (reading_of_cut version (view value.now)) }
{
    readings_are_faultless();
    let text = value.to_string(alloc)?;
    read_cut_text(alloc, version, text.as_bytes())
}
