//! A puller's turn.
ghost use Rattle.std.specs.Prelude.{◌≡◌, IfErr, IfSome};
ghost use Rattle.bep_log.specs.declared.error.LogError.TheVariants.{Memory};
ghost use Rattle.bep_run.specs.Why.{IsOfTurns};
ghost use Rattle.bep_run.specs.inner.Tickets.{IsNotOld};

use crate::dropping::pulled_in_vain;
use crate::shared::Held;
use crate::starting::has_no_pull;
use crate::tally::tally;
use crate::{Locked, Origin};
use bep_log::LogError;
use bep_machine::Moved;
use bep_map::NameMap;
use bep_record::{DeviceId, FolderName, Name};
use bep_store::Store;
use std::sync::Wait;

impl<S: Store, O: Origin> Locked<S, O> {
    /// Takes each name that the device wants one step on, and answers how many actions answered Ok: a pull is begun where
    /// there is none, the next block is asked for over each link, and the pull is ended if it can be. Then it ends the pulls of
    /// the names that aren't wanted, which are dropped. What is refused is passed over. Refuses `NotShared` where the device
    /// isn't there; else only for want of memory, which ends the turn. May wait.
    pub fn puller_turn<R: Wait>(&self, rt: &R, device: DeviceId) -> Result<u64, LogError>
        ensures only { IfErr result (IsOfTurns O.table) }
    {
        let held = self.device(device)?;
        let mut done = 0;
        for folder in held.folders.as_slice() {
            let names = self.wanted(rt, held, folder)?;
            for (name, _) in names.iter() {
                done = self.pull_on(rt, held, folder, name, done)?;
            }
            done = self.end_in_vain(rt, held, folder, done)?;
        }
        Ok(done)
    }

    // Ends the folder's pulls of names that aren't wanted.
    fn end_in_vain<R: Wait>(
        &self,
        rt: &R,
        held: &Held<S, O>,
        folder: &FolderName,
        before: u64,
    ) -> Result<u64, LogError>
        ensures only { IfErr result (IsOfTurns O.table) }
    {
        let mut done = before;
        let names = self.in_vain(rt, held, folder)?;
        for (name, _) in names.iter() {
            done = tally::<O, Moved>(done, self.finish(rt, held, folder, name))?;
        }
        Ok(done)
    }

    // The names of which the device has a pull in the folder and wants no record.
    fn in_vain<R: Wait>(
        &self,
        rt: &R,
        held: &Held<S, O>,
        folder: &FolderName,
    ) -> Result<NameMap<()>, LogError>
        ensures only { IfErr result (λ e. e ≡ Memory) }
    {
        let peer = held.peer.lock(rt);
        match peer.peer().replica(folder) {
            Some(replica) => Ok(pulled_in_vain(self.alloc, replica)?),
            None => Ok(NameMap::new(self.alloc)),
        }
    }

    // The names that the device wants in the folder.
    fn wanted<R: Wait>(
        &self,
        rt: &R,
        held: &Held<S, O>,
        folder: &FolderName,
    ) -> Result<NameMap<()>, LogError>
        ensures only { IfErr result (λ e. e ≡ Memory) }
    {
        let peer = held.peer.lock(rt);
        match peer.peer().replica(folder) {
            Some(replica) => Ok(replica.wanted_names()?),
            None => Ok(NameMap::new(self.alloc)),
        }
    }

    // Takes the name's pull a step on.
    fn pull_on<R: Wait>(
        &self,
        rt: &R,
        held: &Held<S, O>,
        folder: &FolderName,
        name: &Name,
        before: u64,
    ) -> Result<u64, LogError>
        ensures only { IfErr result (IsOfTurns O.table) }
    {
        let mut done = before;
        if let Some(began) = self.begin_pull(rt, held, folder, name) {
            done = tally::<O, Moved>(done, began)?;
        }
        for joint in self.links.iter().filter(|joint| joint.is_of(held.number)) {
            done = tally::<O, Moved>(done, self.ask(rt, held, joint, folder, name))?;
        }
        tally::<O, Moved>(done, self.finish(rt, held, folder, name))
    }

    // Begins a pull of the name, if there is none.
    fn begin_pull<R: Wait>(
        &self,
        rt: &R,
        held: &Held<S, O>,
        folder: &FolderName,
        name: &Name,
    ) -> Option<Result<Moved, LogError>>
        ensures only { IfSome result (λ began. IfErr began (IsNotOld O.table)) }
    {
        let mut peer = held.peer.lock(rt);
        if !has_no_pull(peer.peer(), folder, name) {
            return None;
        }
        Some(peer.pull(rt, &self.history, folder, name))
    }

    // Ends the name's pull, if it can be ended.
    fn finish<R: Wait>(
        &self,
        rt: &R,
        held: &Held<S, O>,
        folder: &FolderName,
        name: &Name,
    ) -> Result<Moved, LogError>
        ensures only { IfErr result (IsNotOld O.table) }
    {
        let mut peer = held.peer.lock(rt);
        peer.finish(rt, &self.history, folder, name)
    }
}
