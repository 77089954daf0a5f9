//! Receiving the blocks of what is pulled.
ghost use Rattle.std.specs.Prelude.{◌≡◌, ◌↔◌, ◌⊎◌, None, IsErrOf, IfErr, OnOk, OnErr};
ghost use Rattle.bep_machine.specs.declared.message.Request.{Request as RequestOf};
ghost use Rattle.bep_machine.specs.Exchange.{with_block};
ghost use Rattle.bep_machine.specs.Replica.{pull_at};
ghost use Rattle.bep_machine.specs.Steps.{without_pulls};
ghost use Rattle.bep_folder.specs.Received.{AddsTo, AreAsked, AsksFor, IsBlockOf, IsNoBlock, Receives};
ghost use Rattle.bep_folder.specs.Views.{unchanged};

use crate::pull::asked::place_asked;
use crate::{FolderError, Pull, Replica};
use bep_machine::Request;
use bep_map::NameMap;
use bep_record::Name;
use bep_store::Store;
use std::alloc::AllocError;

impl<S: Store> Replica<S> {
    /// Receives the bytes of the block at this place, from 0, of what is pulled of the name. A block that was received
    /// already stays as it is. It does what the answer to any request for that block does.
    ///
    /// Refuses `NotNeeded` where the name has no pull, and then `HashBad` where the record that is pulled has no block at
    /// that place, or the bytes lack its size or its SHA-256. Else only want of memory is answered. After an error all is
    /// as before.
    pub fn add_block(&mut self, name: &Name, place: usize, bytes: &[u8]) -> Result<(), FolderError>
        ensures ok { OnOk result (Receives name.now place bytes.now self.old self.new) }
        ensures answered { OnOk result ((request : RequestOf) → AsksFor name.now place self.old.tables request → self.new.tables ≡ with_block request bytes.now (pull_at self.old.tables name.now) self.old.tables) }

        ensures not_needed { IsErrOf result FolderError.NotNeeded ↔ (pull_at self.old.tables name.now ≡ None) }
        ensures hash_bad { IsErrOf result FolderError.HashBad ↔ IsNoBlock name.now place bytes.now self.old.tables }
        ensures only { IfErr result (λ e. (e ≡ FolderError.NotNeeded) ⊎ (e ≡ FolderError.HashBad) ⊎ (e ≡ FolderError.Memory)) }
        ensures err { OnErr result (self.new ≡ unchanged self.old) }
    {
        self.begin();
        let Some(pull) = self.pulls.get(name) else {
            return Err(FolderError::NotNeeded);
        };
        if !pull.is_block(place, bytes) {
            return Err(FolderError::HashBad);
        }
        add_in(&mut self.pulls, name, place, bytes)?;
        Ok(())
    }

    /// Receives the bytes that answer the request. Where nothing is pulled of its name, or what is pulled has no such
    /// block, nothing changes; a block that was received already stays as it is. Only want of memory is answered, and
    /// then all is as before. The caller sees to it that the bytes are those that were asked for: as many, and with that
    /// SHA-256.
    ///
    /// BEP v1, 'Response'.
    pub fn receive(&mut self, request: &Request, bytes: &[u8]) -> Result<(), FolderError>
        requires { AreAsked request.now bytes.now }
        ensures ok { OnOk result (self.new ≡ record (unchanged self.old) { tables = with_block request.now bytes.now (pull_at self.old.tables request.now.name) self.old.tables }) }

        ensures only { IfErr result (λ e. e ≡ FolderError.Memory) }
        ensures err { OnErr result (self.new ≡ unchanged self.old) }
    {
        self.begin();
        let Some(pull) = self.pulls.get(&request.name) else {
            return Ok(());
        };
        let Some(place) = place_asked(pull.target(), request) else {
            return Ok(());
        };
        add_in(&mut self.pulls, &request.name, place, bytes)?;
        Ok(())
    }

    /// Forgets all pulls, as a device does that starts again. It takes no memory.
    pub fn forget_pulls(&mut self)
        ensures { self.new ≡ record (unchanged self.old) { tables = without_pulls self.old.tables } }
    {
        self.begin();
        self.pulls = NameMap::new(self.alloc);
    }
}

// Receives the block of the name's pull.
fn add_in(
    pulls: &mut NameMap<Pull>,
    name: &Name,
    place: usize,
    bytes: &[u8],
) -> Result<(), AllocError>
    requires { IsBlockOf name.now place bytes.now pulls.old }
    ensures ok { OnOk result (AddsTo name.now place bytes.now pulls.old pulls.new) }
    ensures err { OnErr result (pulls.new ≡ pulls.old) }
{
    match pulls.get_mut(name) {
        Some(pull) => pull.add(place, bytes),
        None => unreachable!(),
    }
}
