//! What is seen in a cut of a running cluster.
use bep_blocks::OpenGate;
use bep_fit::RunVerdict;
use bep_record::{FolderName, Name};
use bep_run::Shared;
use bep_run_cut::{RunCut, check_run};
use bep_store::Store;
use bep_tables::Cut;
use std::sync::Wait;

/// What a device has at a name: of how many bytes its file is, and whether its own record is a deletion.
pub(crate) type Held = (Option<usize>, Option<bool>);

/// The next cut and how many events it has, if it fits.
pub(crate) fn next_cut<R: Wait, S: Store>(rt: &R, shared: &Shared<S>) -> Option<(RunCut, u64)> {
    let run = shared.take_cut(rt, &OpenGate).ok()?;
    match check_run(&run) {
        RunVerdict::Fits(count) => Some((run, count)),
        RunVerdict::Misfit(_, _) => None,
    }
}

/// What the device of this number has at the name in the run's cut.
pub(crate) fn held(run: &RunCut, number: u64, folder: &FolderName, name: &Name) -> Held {
    held_in(run.cut(), number, folder, name)
}

/// What it has there in a cut.
pub(crate) fn held_in(cut: &Cut, number: u64, folder: &FolderName, name: &Name) -> Held {
    for share in cut.shares(folder) {
        if share.device.number() == number {
            let len = share
                .store
                .get(name)
                .map(|node| node.parts().bytes.as_slice().len());
            let deleted = share.own.get(name).map(|own| own.entry().deleted);
            return (len, deleted);
        }
    }
    (None, None)
}

/// How many pulls the device of this number has in the run's cut.
pub(crate) fn pulls(run: &RunCut, number: u64, folder: &FolderName) -> Option<usize> {
    for share in run.cut().shares(folder) {
        if share.device.number() == number {
            return Some(share.pulls.len());
        }
    }
    None
}
