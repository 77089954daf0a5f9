//! A copy of a device in memory.
ghost use Rattle.std.specs.Prelude.{◌≡◌, ◌⊎◌, IsSome, IfOk, IfErr, OnOk, option_map};
ghost use Rattle.std.specs.FinMap as map;
ghost use Rattle.bep_facts.specs.Filled.{with_value};
ghost use Rattle.bep_folder.specs.Contents.{copied_out};
ghost use Rattle.bep_machine.specs.declared.refusal.Refusal.TheVariants.{StoreFault};
ghost use Rattle.bep_peer.specs.inner.Call.{IsRead};
ghost use Rattle.bep_peer.specs.Copied.{IsReread, folders_copied, member_copied};
ghost use Rattle.bep_peer.specs.Member.{Remains, nothing_told, tables_of};
ghost use Rattle.bep_peer.specs.Within.{TellsFault};
ghost use Rattle.bep_peer.specs.declared.error.PeerError.TheVariants.{Memory, Refused};

use crate::told::Told;
use crate::within::call::Call;
use crate::{Peer, PeerError};
use bep_folder::{FolderError, Replica};
use bep_map::FolderMap;
use bep_record::FolderName;
use bep_store::{MemStore, Store};
use std::alloc::{AllocError, Global};

impl<S: Store> Peer<S> {
    /// The device with stores in memory that hold what its own stores hold: all else is copied. Refuses `StoreFault`
    /// exactly where a store fails to list its names or to read one; else only for want of memory. It is no step.
    pub fn copy_out(&mut self) -> Result<Peer<MemStore>, PeerError>
        ensures copied { IfOk result (λ copy. copy ≡ member_copied self.old) }
        ensures tables { IfOk result (λ copy. tables_of copy ≡ tables_of self.old) }
        ensures only { IfErr result (λ e. (e ≡ Refused StoreFault) ⊎ (e ≡ Memory)) }
        ensures same { tables_of self.new ≡ tables_of self.old }
        ensures rest { Remains self.old self.new }
        ensures fault { TellsFault self.new result }
    {
        self.tell_nothing();
        let names = names_of(&self.folders, self.alloc)?;
        let folders = self.copy_folders(names.as_slice())?;
        Ok(self.copy_over(folders)?)
    }

    // Copies of these folders.
    fn copy_folders(
        &mut self,
        names: &[FolderName],
    ) -> Result<FolderMap<Replica<MemStore>>, PeerError>
        requires names { names.now ≡ map.keys self.old.folders }
        requires untold { self.old.trace ≡ nothing_told }
        ensures copied { IfOk result (λ copies. copies ≡ folders_copied self.old.folders) }
        ensures read { OnOk result (IsReread self.old self.new) }
        ensures only { IfErr result (λ e. (e ≡ Refused StoreFault) ⊎ (e ≡ Memory)) }
        ensures same { tables_of self.new ≡ tables_of self.old }
        ensures rest { Remains self.old self.new }
        ensures fault { TellsFault self.new result }
    {
        let mut copies = FolderMap::new(self.alloc);
        for folder in names {
            self.copy_folder(&mut copies, folder)?;
        }
        Ok(copies)
    }

    // Adds a copy of the folder.
    fn copy_folder(
        &mut self,
        copies: &mut FolderMap<Replica<MemStore>>,
        folder: &FolderName,
    ) -> Result<(), PeerError>
        requires { IsSome (map.get self.old.folders folder.now) }
        ensures copied { OnOk result (copies.new ≡ with_value copies.old folder.now (option_map copied_out (map.get self.old.folders folder.now))) }
        ensures read { OnOk result (IsReread self.old self.new) }
        ensures only { IfErr result (λ e. (e ≡ Refused StoreFault) ⊎ (e ≡ Memory)) }
        ensures same { tables_of self.new ≡ tables_of self.old }
        ensures rest { Remains self.old self.new }
        ensures fault { TellsFault self.new result }
    {
        let copy = self.call(folder, CopyOut)?;
        copies.insert(folder.copy(self.alloc)?, copy)?;
        Ok(())
    }

    // The device with these folders.
    fn copy_over(&self, folders: FolderMap<Replica<MemStore>>) -> Result<Peer<MemStore>, AllocError>
        requires { folders ≡ folders_copied self.now.folders }
        ensures { IfOk result (λ copy. copy ≡ member_copied self.now) }
    {
        Ok(Peer {
            number: self.number,
            folders,
            sessions: self.sessions.copy(self.alloc)?,
            linked: self.linked.copy(self.alloc)?,
            trace: Told::nothing(),
            alloc: self.alloc,
        })
    }
}

// The map's folders, in order.
fn names_of<V>(folders: &FolderMap<V>, alloc: Global) -> Result<Vec<FolderName>, AllocError>
    ensures { IfOk result (λ names. names.items ≡ map.keys folders.now) }
{
    let mut names = Vec::new(alloc);
    for (folder, _value) in folders.iter() {
        names.push(folder.copy(alloc)?)?;
    }
    Ok(names)
}

// The folder over a store in memory.
#[derive(Drop)]
struct CopyOut;

impl<S: Store> Call<S, Replica<MemStore>> for CopyOut {
    ghost does = { λ _ before. IsRead (λ copy. copy ≡ copied_out before) before };

    fn make(self, replica: &mut Replica<S>) -> Result<Replica<MemStore>, FolderError> {
        replica.copy_out()
    }
}
