//! The beginning of a pull.
ghost use Rattle.std.specs.Prelude.{◌≡◌, ◌≢◌, ◌≤◌, ◌↔◌, false, IsTrue, IfOk, IfErr, IsErrOf, Err, OnOk, OnErr};
ghost use Rattle.std.specs.Option.{option_copied};
ghost use Rattle.std.specs.FinMap as map;
ghost use Rattle.bep_index.specs.declared.limits.TheConstants.{MAX_SEQUENCE};
ghost use Rattle.bep_machine.specs.Replica.{own_at, with_pull};
ghost use Rattle.bep_machine.specs.Pull.{ArePullsFull, IsNeededAnyway, StartPullRow, new_pull};
ghost use Rattle.bep_folder.specs.Makes.{Makes, Stays, CountsFaults};
ghost use Rattle.bep_folder.specs.inner.Start.{MayPull};
ghost use Rattle.bep_folder.specs.Unhidden.{RefusesNone};

use crate::{FolderError, Pull, Replica};
use bep_choice::needed;
use bep_machine::Moved;
use bep_map::NameMap;
use bep_record::{FolderKind, MAX_PULLS, Name, Record};
use bep_store::Store;
use std::alloc::{AllocError, Global};

impl<S: Store> Replica<S> {
    /// Begins a pull of the record that the device wants of the name. Nothing of it was received yet, also where that
    /// record was being pulled already.
    ///
    /// Refuses, in this order, `NotNeeded` where the device chooses no record of the name, or one that no kind of folder
    /// would need here, `KindForbids` where the folder's kind, or a local-only own record, stands against the chosen one,
    /// and `PullsFull` where the name has no pull and the folder has 64. Else only want of memory is answered: where
    /// memory is wanting, none of these is due. After an error all is as before.
    pub fn start_pull(&mut self, name: &Name) -> Result<Moved, FolderError>
        ensures started { Makes (StartPullRow self.old.device name.now) self.old self.new result }
        ensures unhidden { IsErrOf result FolderError.Memory → RefusesNone (StartPullRow self.old.device name.now self.old.tables) }
        ensures err { OnErr result (self.new.tables ≡ self.old.tables) }

        ensures stays { Stays self.old self.new }
        ensures counted { CountsFaults self.old self.new result }
        ensures uncopied { self.new.trace.copied ≡ false }
    {
        self.begin();
        let target = self.record_to_pull(name)?;
        let pull = begun(self.alloc, target)?;
        self.put_pull(self.alloc, name, pull)?;
        Ok(Moved::Changed)
    }

    // The record of which a pull begins, or why none does. It takes no memory.
    fn record_to_pull(&self, name: &Name) -> Result<&Record, FolderError>
        ensures ok { IfOk result (λ target. MayPull self.now.device name.now self.now.tables target.now) }
        ensures err { IfErr result (λ e. Makes (StartPullRow self.now.device name.now) self.now self.now (Err e)) }
        ensures only { IfErr result (λ e. e ≢ FolderError.Memory) }
    {
        let Some(chosen) = self.chosen(name) else {
            return Err(FolderError::NotNeeded);
        };
        if !self.needs(name, chosen) {
            if self.needs_anyway(name, chosen) {
                return Err(FolderError::KindForbids);
            }
            return Err(FolderError::NotNeeded);
        }
        if self.are_pulls_full(name) {
            return Err(FolderError::PullsFull);
        }
        Ok(chosen)
    }

    // Whether a send and receive folder would need the record, if the own one weren't local-only.
    fn needs_anyway(&self, name: &Name, chosen: &Record) -> bool
        ensures { IsTrue result ↔ IsNeededAnyway (own_at self.now.tables name.now) chosen.now }
    {
        is_needed_anyway(self.index.get(name), chosen)
    }

    // Whether the name has no pull, and there is no room for one more.
    fn are_pulls_full(&self, name: &Name) -> bool
        ensures { IsTrue result ↔ ArePullsFull self.now.tables name.now }
    {
        !self.pulls.contains(name) && self.pulls.len() >= MAX_PULLS
    }

    // Puts the pull under the name, in place of any other.
    fn put_pull(&mut self, alloc: Global, name: &Name, pull: Pull) -> Result<(), FolderError>
        requires named { pull.target.name ≡ name.now }
        requires room { ¬ ArePullsFull self.old.tables name.now }
        ensures ok { OnOk result (self.new ≡ record self.old { tables = with_pull self.old.tables name.now pull }) }
        ensures only { IfErr result (λ e. e ≡ FolderError.Memory) }
        ensures err { OnErr result (self.new ≡ self.old) }
    {
        put_in(&mut self.pulls, alloc, name, pull)
    }
}

// The pull of a copy of the record, of which nothing was received yet.
fn begun(alloc: Global, target: &Record) -> Result<Pull, AllocError>
    requires valid { target.now.invalid ≡ false }
    requires within { target.now.sequence ≤ MAX_SEQUENCE }
    ensures { IfOk result (λ pull. pull ≡ new_pull target.now) }
{
    let target = target.copy(alloc)?;
    Pull::new(alloc, target)
}

// Puts the pull under the name, in place of any other.
fn put_in(
    pulls: &mut NameMap<Pull>,
    alloc: Global,
    name: &Name,
    pull: Pull,
) -> Result<(), FolderError>
    ensures ok { OnOk result (pulls.new ≡ map.insert pulls.old name.now pull) }
    ensures only { IfErr result (λ e. e ≡ FolderError.Memory) }
    ensures err { OnErr result (pulls.new ≡ pulls.old) }
{
    let named = name.copy(alloc)?;
    pulls.insert(named, pull)?;
    Ok(())
}

// The same beside this own record, if there is one.
fn is_needed_anyway(own: Option<&Record>, chosen: &Record) -> bool
    ensures { IsTrue result ↔ IsNeededAnyway (option_copied own.entry) chosen.now }
{
    match own {
        None => needed(FolderKind::SendReceive, None, chosen),
        Some(own) => !chosen.entry().version.is_at_most(&own.entry().version),
    }
}
