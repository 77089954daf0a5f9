//! A scanner's turn.
ghost use Rattle.std.specs.Prelude.{◌≡◌, IfErr};
ghost use Rattle.bep_log.specs.declared.error.LogError.TheVariants.{Memory};
ghost use Rattle.bep_run.specs.Why.{IsOfTurns};
ghost use Rattle.bep_run.specs.inner.Tickets.{IsNotOld};

use crate::shared::Held;
use crate::tally::{read_or_pass, tally};
use crate::unchanged::is_known_clean;
use crate::{Locked, Origin};
use bep_blocks::{BlocksError, Gate, Place};
use bep_folder::ScanResult;
use bep_log::LogError;
use bep_machine::Moved;
use bep_map::NameMap;
use bep_record::{DeviceId, FolderName, Name, Node};
use bep_store::Store;
use std::sync::Wait;
use std::thread::Threads;

// How many workers hash what a scanner found.
const WORKERS: u32 = 2;

// What a scanner finds at a name.
#[derive(Drop)]
enum Found {
    // The own record is clean against it: a scan records nothing, whatever its bytes are.
    Clean,
    // A copy of it, or that nothing is there, which has to be hashed.
    Unknown(Option<Node>),
}

impl<S: Store, O: Origin> Locked<S, O> {
    /// Scans each name of the device's stores and own records once, and answers how many scans were recorded, those among
    /// them that found no change. What is found at a name is hashed under no lock, by two workers, unless the store has it at
    /// hand and the own record is clean against it: such a scan records nothing, whatever the bytes are. In either case the
    /// gate is passed at `Hashed` before the scan is recorded. A name that is refused, or has changed meanwhile, is passed
    /// over, and so is a folder whose store can't list its names. Refuses `NotShared` where the device isn't there; else only
    /// for want of memory, which ends the turn. May wait.
    pub fn scanner_turn<R: Threads + Wait + Sync, G: Gate + Sync>(
        &self,
        rt: &R,
        device: DeviceId,
        gate: &G,
    ) -> Result<u64, LogError>
        ensures only { IfErr result (IsOfTurns O.table) }
    {
        let held = self.device(device)?;
        let mut done = 0;
        for folder in held.folders.as_slice() {
            done = self.scan_folder(rt, gate, held, folder, done)?;
        }
        Ok(done)
    }

    // Scans the folder's names.
    fn scan_folder<R: Threads + Wait + Sync, G: Gate + Sync>(
        &self,
        rt: &R,
        gate: &G,
        held: &Held<S, O>,
        folder: &FolderName,
        before: u64,
    ) -> Result<u64, LogError>
        ensures only { IfErr result (IsOfTurns O.table) }
    {
        let Some(names) = read_or_pass(self.names(rt, held, folder))? else {
            return Ok(before);
        };
        let mut done = before;
        for (name, _) in names.iter() {
            if let Some(found) = read_or_pass(self.find(rt, held, folder, name))? {
                done = tally::<O, Moved>(done, self.record(rt, gate, held, folder, name, found))?;
            }
        }
        Ok(done)
    }

    // Records what was found at the name, hashed first unless it is clean. The gate sees each name once.
    fn record<R: Threads + Wait + Sync, G: Gate + Sync>(
        &self,
        rt: &R,
        gate: &G,
        held: &Held<S, O>,
        folder: &FolderName,
        name: &Name,
        found: Found,
    ) -> Result<Moved, LogError>
        ensures only { IfErr result (IsNotOld O.table) }
    {
        let scan = match found {
            Found::Clean => None,
            Found::Unknown(node) => Some(self.hash(rt, gate, name, node)?),
        };
        gate.pass(Place::Hashed(held.number));
        match scan {
            None => self.commit_clean(rt, held, folder, name),
            Some(scan) => self.commit(rt, held, folder, scan),
        }
    }

    // The names of the folder's store and of the own records.
    fn names<R: Wait>(
        &self,
        rt: &R,
        held: &Held<S, O>,
        folder: &FolderName,
    ) -> Result<NameMap<()>, LogError> {
        let mut peer = held.peer.lock(rt);
        Ok(peer.names(folder)?)
    }

    // What the folder has at the name.
    fn find<R: Wait>(
        &self,
        rt: &R,
        held: &Held<S, O>,
        folder: &FolderName,
        name: &Name,
    ) -> Result<Found, LogError> {
        let mut peer = held.peer.lock(rt);
        if is_known_clean(peer.peer(), folder, name) {
            return Ok(Found::Clean);
        }
        Ok(Found::Unknown(peer.look(folder, name)?))
    }

    // What was found, hashed. No lock is held here.
    fn hash<R: Threads + Sync, G: Gate + Sync>(
        &self,
        rt: &R,
        gate: &G,
        name: &Name,
        node: Option<Node>,
    ) -> Result<ScanResult, LogError>
        ensures only { IfErr result (λ e. e ≡ Memory) }
    {
        let name = name.copy(self.alloc)?;
        match ScanResult::hash(rt, self.alloc, gate, name, node, WORKERS) {
            Ok(scan) => Ok(scan),
            Err(BlocksError::Memory) => Err(LogError::Memory),
            Err(BlocksError::FileTooLarge | BlocksError::WorkersBad) => unreachable!(),
        }
    }

    // Records that a scan finds no change, or answers `Stale` where the name isn't clean any more. A scan of a clean name
    // hashes nothing, so nothing is hashed under the lock.
    fn commit_clean<R: Wait>(
        &self,
        rt: &R,
        held: &Held<S, O>,
        folder: &FolderName,
        name: &Name,
    ) -> Result<Moved, LogError>
        ensures only { IfErr result (IsNotOld O.table) }
    {
        let mut peer = held.peer.lock(rt);
        if !is_known_clean(peer.peer(), folder, name) {
            return Err(LogError::Stale);
        }
        peer.scan(rt, &self.history, folder, name)
    }

    // Records what the scan found.
    fn commit<R: Wait>(
        &self,
        rt: &R,
        held: &Held<S, O>,
        folder: &FolderName,
        scan: ScanResult,
    ) -> Result<Moved, LogError>
        ensures only { IfErr result (IsNotOld O.table) }
    {
        let mut peer = held.peer.lock(rt);
        peer.scan_commit(rt, &self.history, folder, scan)
    }
}
