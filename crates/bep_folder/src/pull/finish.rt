//! Ending a pull: whether it may end, and whether the own file is kept as a conflict copy.
ghost use Rattle.std.specs.Prelude.{◌≡◌, ◌≤◌, ◌↔◌, ◌⊎◌, ◌<◌, length, true, false, Some, None, IsSome, IsTrue, IsErr, IfOk, IfErr, IsErrOf};
ghost use Rattle.std.specs.Option.{option_copied};
ghost use Rattle.bep_record.specs.Name.{max_name_len};
ghost use Rattle.bep_record.specs.Node.{IsClean};
ghost use Rattle.bep_machine.specs.Replica as machine;
ghost use Rattle.bep_machine.specs.Replica.{own_at, node_at, pull_at, without_pull};
ghost use Rattle.bep_machine.specs.Pull.{CopyingRow, EndingRow, FinishRow, IsConflictDue, IsStillWanted, copy_name};
ghost use Rattle.bep_folder.specs.Calls.{CallsInFinish};
ghost use Rattle.bep_folder.specs.inner.Ending.{CleanRow, IsIncomplete, PulledRow};
ghost use Rattle.bep_folder.specs.Finish.{GainsCopy};
ghost use Rattle.bep_folder.specs.inner.Finish.{FailsLater, IfPulled, Looks, TellsOfCopy};
ghost use Rattle.bep_folder.specs.inner.Conflict.{IsKeptAs, IsKeptAt};
ghost use Rattle.bep_folder.specs.Makes.{Makes, Stays, CountsFaults};
ghost use Rattle.bep_folder.specs.Views.{unchanged};

use crate::beside::has_content_of;
use crate::pull::adopt::forget;
use crate::pull::conflict::{is_conflict_due, is_copy, is_file};
use crate::{FolderError, Replica};
use bep_machine::Moved;
use bep_record::{Name, Node, RecordError, conflict_name, is_clean};
use bep_store::Store;
use std::alloc::Global;

impl<S: Store> Replica<S> {
    /// Ends the name's pull: puts the record that was pulled under the merge of its version and the own one, and gives
    /// the name its file. Where a concurrent change of the own file loses, that file is first kept under its conflict
    /// name. A pull whose record isn't wanted any more goes: Dropped.
    ///
    /// Refuses, in this order, `NotNeeded` where the name has no pull, `BlocksMissing` where a file's block wasn't
    /// received, unless the own record has its content, `StoreFault` where reading the name fails, and `Unscanned` where
    /// its node isn't clean against the own record; where a conflict copy is due, `NameBad` where its name would have
    /// over 1024 bytes, `StoreFault` where reading there fails, and `CopyExists` where another node stands there;
    /// `TooManyCounters`, `SequenceFull` and `IndexFull` where the record has no room; and `StoreFault` where a write
    /// fails. Else only want of memory is answered. After an error all is as before, save a conflict copy, of which the
    /// trace tells. It calls the store once to read the name, once more to read the conflict name where a copy is due, and
    /// once for each write; where a call fails, it was the last one.
    pub fn finish(&mut self, name: &Name) -> Result<Moved, FolderError>
        ensures finished { Makes (FinishRow self.old.device name.now self.new.trace.failed) self.old self.new result }

        ensures copied { (self.new.trace.copied ≡ true) ↔ GainsCopy name.now self.old.tables self.new.tables }
        ensures kept { IsErr result → self.new.trace.copied ≡ false → self.new.tables ≡ self.old.tables }

        ensures stays { Stays self.old self.new }
        ensures counted { CountsFaults self.old self.new result }
        ensures called { CallsInFinish name.now self.old.tables self.new result }
    {
        self.begin();
        if !self.pulls.contains(name) {
            return Err(FolderError::NotNeeded);
        }
        if !self.is_still_wanted(name) {
            self.drop_pull(name);
            return Ok(Moved::Dropped);
        }
        self.end_pull(self.alloc, name)
    }

    // Begins a call, which has made no call of the store yet.
    pub(crate) fn begin(&mut self)
        ensures { self.new ≡ unchanged self.old }
    {
        self.store.begin();
    }

    // The name's pull goes.
    fn drop_pull(&mut self, name: &Name)
        ensures { self.new ≡ record self.old { tables = without_pull self.old.tables name.now } }
    {
        forget(&mut self.pulls, name);
    }

    // Whether the device still wants the very record that it pulls.
    fn is_still_wanted(&self, name: &Name) -> bool
        ensures { IfPulled name.now self.now.tables (λ pull. IsTrue result ↔ IsStillWanted self.now.device self.now.tables name.now pull.target) }
    {
        let Some(pull) = self.pulls.get(name) else {
            return false;
        };
        match self.wanted(name) {
            Some(wanted) => wanted.same_entry(pull.target()),
            None => false,
        }
    }

    // Ends a pull whose record is wanted.
    fn end_pull(&mut self, alloc: Global, name: &Name) -> Result<Moved, FolderError>
        requires pulled { IsSome (pull_at self.old.tables name.now) }
        requires first { self.old.made ≡ 0 }
        requires untroubled { self.old.trace.failed ≡ None }
        requires uncopied { self.old.trace.copied ≡ false }
        ensures made { Makes (λ old. PulledRow name.now (λ pull. EndingRow name.now pull self.new.trace.failed old) old) self.old self.new result }
        ensures copied { TellsOfCopy name.now self.old self.new result }
        ensures same { Stays self.old self.new }
        ensures counted { CountsFaults self.old self.new result }
        ensures called { CallsInFinish name.now self.old.tables self.new result }
    {
        if self.is_incomplete(name) {
            return Err(FolderError::BlocksMissing);
        }
        let node = self.read_node(alloc, name)?;
        self.end_with(alloc, name, node.as_ref())
    }

    // Whether a block is missing of a file whose content isn't there yet.
    fn is_incomplete(&self, name: &Name) -> bool
        ensures { IfPulled name.now self.now.tables (λ pull. IsTrue result ↔ IsIncomplete (own_at self.now.tables name.now) pull) }
    {
        let Some(pull) = self.pulls.get(name) else {
            return false;
        };
        let target = pull.target();
        is_file(target) && !has_content_of(self.index.get(name), target) && pull.is_missing_blocks()
    }

    // The store's node at the name; the call is counted.
    fn read_node(&mut self, alloc: Global, name: &Name) -> Result<Option<Node>, FolderError>
        ensures node { IfOk result (λ node. node ≡ node_at self.old.tables name.now) }
        ensures looked { Looks self.old self.new result }
    {
        self.store.read(alloc, name)
    }

    // Ends a pull whose blocks are there, beside the name's node.
    fn end_with(
        &mut self,
        alloc: Global,
        name: &Name,
        node: Option<&Node>,
    ) -> Result<Moved, FolderError>
        requires pulled { IsSome (pull_at self.old.tables name.now) }
        requires node { node_at self.old.tables name.now ≡ option_copied node }
        requires complete { IfPulled name.now self.old.tables (λ pull. ¬ IsIncomplete (own_at self.old.tables name.now) pull) }
        requires second { self.old.made ≡ 1 }
        requires untroubled { self.old.trace.failed ≡ None }
        requires uncopied { self.old.trace.copied ≡ false }
        ensures made { Makes (λ old. PulledRow name.now (λ pull. CleanRow name.now pull self.new.trace.failed old) old) self.old self.new result }
        ensures copied { TellsOfCopy name.now self.old self.new result }
        ensures later { FailsLater self.old self.new }
        ensures same { Stays self.old self.new }
        ensures counted { CountsFaults self.old self.new result }
        ensures called { CallsInFinish name.now self.old.tables self.new result }
    {
        if !self.is_scanned(name, node) {
            return Err(FolderError::Unscanned);
        }
        if self.needs_copy(name) {
            return self.end_beside(alloc, name, node);
        }
        self.adopt(alloc, name, None, node)
    }

    // Whether the node is clean against the own record.
    fn is_scanned(&self, name: &Name, node: Option<&Node>) -> bool
        ensures { IsTrue result ↔ IsClean (option_copied node.entry) (own_at self.now.tables name.now) }
    {
        is_clean(node, self.index.get(name))
    }

    // Whether the own file loses against the record that is pulled.
    fn needs_copy(&self, name: &Name) -> bool
        ensures { IfPulled name.now self.now.tables (λ pull. IsTrue result ↔ IsConflictDue (own_at self.now.tables name.now) pull.target) }
    {
        let Some(pull) = self.pulls.get(name) else {
            return false;
        };
        is_conflict_due(self.index.get(name), pull.target())
    }

    // Ends a pull whose blocks are there, and keeps the name's node under the conflict name, unless its copy is there.
    fn end_beside(
        &mut self,
        alloc: Global,
        name: &Name,
        node: Option<&Node>,
    ) -> Result<Moved, FolderError>
        requires pulled { IsSome (pull_at self.old.tables name.now) }
        requires node { node_at self.old.tables name.now ≡ option_copied node }
        requires kept { IsSome (option_copied node) }
        requires due { IfPulled name.now self.old.tables (λ pull. IsConflictDue (own_at self.old.tables name.now) pull.target) }
        requires complete { IfPulled name.now self.old.tables (λ pull. ¬ IsIncomplete (own_at self.old.tables name.now) pull) }
        requires second { self.old.made ≡ 1 }
        requires untroubled { self.old.trace.failed ≡ None }
        requires uncopied { self.old.trace.copied ≡ false }
        ensures made { Makes (λ old. PulledRow name.now (λ pull. CopyingRow name.now pull self.new.trace.failed (own_at old name.now) (node_at old name.now) old) old) self.old self.new result }
        ensures copied { TellsOfCopy name.now self.old self.new result }
        ensures later { FailsLater self.old self.new }
        ensures same { Stays self.old self.new }
        ensures counted { CountsFaults self.old self.new result }
        ensures called { CallsInFinish name.now self.old.tables self.new result }
    {
        let copy = self.name_of_copy(alloc, name)?;
        let kept = self.is_kept(alloc, &copy, node)?;
        if kept {
            return self.adopt(alloc, name, None, node);
        }
        self.adopt(alloc, name, Some(&copy), node)
    }

    // Whether the conflict name has a copy of the node already; the call is counted. Refuses `CopyExists` where another
    // node stands there.
    fn is_kept(
        &mut self,
        alloc: Global,
        copy: &Name,
        node: Option<&Node>,
    ) -> Result<bool, FolderError>
        ensures { IsKeptAt copy.now (option_copied node.entry) self.old self.new result }
    {
        let there = self.read_node(alloc, copy)?;
        is_kept_as(there.as_ref(), node)
    }

    // The conflict name of the own record. Refuses `NameBad` where that has over 1024 bytes.
    fn name_of_copy(&self, alloc: Global, name: &Name) -> Result<Name, FolderError>
        requires { IsSome (own_at self.now.tables name.now) }
        ensures ok { IfOk result (λ copy. copy ≡ copy_name (own_at self.now.tables name.now)) }
        ensures bad { IsErrOf result FolderError.NameBad ↔ (max_name_len < length (copy_name (own_at self.now.tables name.now))) }
        ensures only { IfErr result (λ e. (e ≡ FolderError.NameBad) ⊎ (e ≡ FolderError.Memory)) }
    {
        let Some(own) = self.index.get(name) else {
            unreachable!()
        };
        match conflict_name(alloc, own) {
            Ok(copy) => Ok(copy),
            Err(RecordError::NameBad) => Err(FolderError::NameBad),
            Err(_) => Err(FolderError::Memory),
        }
    }
}

// Whether what stands there is a copy of the node. Refuses `CopyExists` where it is another node.
fn is_kept_as(there: Option<&Node>, node: Option<&Node>) -> Result<bool, FolderError>
    ensures { IsKeptAs (option_copied there.entry) (option_copied node.entry) result }
{
    if there.is_none() {
        return Ok(false);
    }
    if !is_copy(there, node) {
        return Err(FolderError::CopyExists);
    }
    Ok(true)
}
