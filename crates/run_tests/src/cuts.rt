//! What goes on while a cut is taken, and after one that is refused.
use crate::made::{device, docs, failing, file, hello, with_file_and_message};
use crate::waiting::{come, count, has_come};
use bep_blocks::{Gate, OpenGate, Place};
use bep_fit::{Object, RunVerdict};
use bep_log::LogError;
use bep_machine::Refusal;
use bep_run::Shared;
use bep_run_cut::check_run;
use bep_store::{MemStore, Store};
use std::alloc::Global;
use std::sync::Wait;
use std::sync::atomic::AtomicU64;
use std::thread;
use std::thread::Threads;
use std::time::Clock;

// A gate that holds a cut at so many guards until something is done that another thread begins then.
#[derive(Drop)]
struct Standing<R: Clock + Drop> {
    rt: R,
    at: u32,
    stands: AtomicU64,
    begun: AtomicU64,
    done: AtomicU64,
    done_meanwhile: AtomicU64,
}

impl<R: Clock + Drop> Standing<R> {
    fn new(rt: R, at: u32) -> Self {
        Standing {
            rt,
            at,
            stands: AtomicU64::new(0),
            begun: AtomicU64::new(0),
            done: AtomicU64::new(0),
            done_meanwhile: AtomicU64::new(0),
        }
    }

    // The cut stands here until it is done, or the limit is reached.
    fn stand(&self) {
        come(&self.stands);
        if has_come(&self.rt, &self.begun) && has_come(&self.rt, &self.done) {
            come(&self.done_meanwhile);
        }
    }

    // Another thread begins, once the cut stands.
    fn begin(&self) -> Option<()> {
        let stands = has_come(&self.rt, &self.stands);
        come(&self.begun);
        stands.then_some(())
    }

    // How often it was begun, was done, and was done while the cut stood.
    fn seen(&self) -> (u64, u64, u64) {
        (
            count(&self.begun),
            count(&self.done),
            count(&self.done_meanwhile),
        )
    }
}

impl<R: Clock + Drop> Gate for Standing<R> {
    fn pass(&self, place: Place) {
        match place {
            Place::Guarded(guards) if guards == self.at => self.stand(),
            Place::Delivered(_) => {
                come(&self.done);
            }
            _ => {}
        }
    }
}

// What a gate saw, and whether the cut fits.
type Seen = ((u64, u64, u64), RunVerdict);

// Edits a file at device 2, once the cut stands.
fn edit_while<R: Wait + Clock + Drop>(
    rt: &R,
    alloc: Global,
    shared: &Shared<MemStore>,
    gate: &Standing<R>,
) -> Option<()> {
    gate.begin()?;
    let (docs, name) = (docs(alloc)?, hello(alloc)?);
    shared
        .edit(rt, device(2)?, &docs, &name, &file(alloc, 5)?)
        .ok()?;
    come(&gate.done);
    Some(())
}

// A cut stands with the guard of device 1 alone until the edit has returned.
fn edited<R: Threads + Wait + Clock + Sync + Copy + Drop>(rt: R, alloc: Global) -> Option<Seen> {
    let shared = with_file_and_message(alloc)?;
    let gate = Standing::new(rt, 1);
    let (edit, run) = thread::join(
        &rt,
        || edit_while(&rt, alloc, &shared, &gate),
        || shared.take_cut(&rt, &gate),
    );
    edit?;
    Some((gate.seen(), check_run(&run.ok()?)))
}

// The edit is done meanwhile, and the cut has it.
#[test]
fn an_edit_goes_through_while_a_cut_is_taken(rt: HostRuntime) {
    assert_eq!(rt;
        edited(rt, rt.alloc()),
        Some(((1, 1, 1), RunVerdict::Fits(1)))
    );
}

// Makes a turn of device 1's session, once the cut stands; how many actions it made.
fn session_while<R: Wait + Clock + Drop>(
    rt: &R,
    shared: &Shared<MemStore>,
    gate: &Standing<R>,
) -> Option<u64> {
    gate.begin()?;
    shared.session_turn(rt, device(1)?, device(2)?, gate).ok()
}

// A cut stands with the guards of both devices, and not yet the link's, until the limit is reached.
fn delivered<R: Threads + Wait + Clock + Sync + Copy + Drop>(
    rt: R,
    alloc: Global,
) -> Option<(Seen, u64)> {
    let shared = with_file_and_message(alloc)?;
    let gate = Standing::new(rt, 2);
    let (turn, run) = thread::join(
        &rt,
        || session_while(&rt, &shared, &gate),
        || shared.take_cut(&rt, &gate),
    );
    Some(((gate.seen(), check_run(&run.ok()?)), turn?))
}

// The message isn't delivered meanwhile; it is once the cut is taken, and then device 1 has begun, and announces its folder.
#[test]
fn a_cut_holds_its_guards_to_the_end(rt: HostRuntime) {
    assert_eq!(rt;
        delivered(rt, rt.alloc()),
        Some((((1, 1, 0), RunVerdict::Fits(0)), 3))
    );
}

type Answer = Result<RunVerdict, LogError>;

fn verdict<R: Wait, S: Store>(rt: &R, shared: &Shared<S>) -> Answer {
    Ok(check_run(&shared.take_cut(rt, &OpenGate)?))
}

// This call of device 1's store fails. A file is put there and a cut taken; then files at both devices, and a cut once more.
fn failed<R: Wait>(rt: &R, alloc: Global, call: u64) -> Option<[Answer; 2]> {
    let (one, two) = (device(1)?, device(2)?);
    let (docs, name) = (docs(alloc)?, hello(alloc)?);
    let shared = Shared::new(alloc, failing(alloc, [call, 0])?).ok()?;
    shared.edit(rt, one, &docs, &name, &file(alloc, 1)?).ok()?;
    let first = verdict(rt, &shared);
    shared.edit(rt, two, &docs, &name, &file(alloc, 2)?).ok()?;
    shared.edit(rt, one, &docs, &name, &file(alloc, 3)?).ok()?;
    Some([first, verdict(rt, &shared)])
}

fn both_fit() -> Option<[Answer; 2]> {
    Some([Ok(RunVerdict::Fits(1)), Ok(RunVerdict::Fits(3))])
}

fn second_fits() -> Option<[Answer; 2]> {
    let fault = LogError::Refused(Refusal::StoreFault);
    Some([Err(fault), Ok(RunVerdict::Fits(3))])
}

// The store lists its names as the cluster comes behind its locks, and then writes; a cut takes the third and the fourth
// call, which list and read.
#[test]
fn a_cut_that_a_store_fails_changes_nothing_and_frees_its_guards(rt: HostRuntime) {
    assert_eq!(rt; failed(&rt, rt.alloc(), 0), both_fit());
    assert_eq!(rt; failed(&rt, rt.alloc(), 3), second_fits());
    assert_eq!(rt; failed(&rt, rt.alloc(), 4), second_fits());
}

// Device 2's store fails as the logs are to begin anew, when device 1's has begun: that answer, whether a cut fits then, and
// whether one fits once all have begun anew.
fn begun_in_part<R: Wait>(rt: &R, alloc: Global) -> Option<(Result<(), LogError>, [Answer; 2])> {
    let shared = Shared::new(alloc, failing(alloc, [0, 2])?).ok()?;
    let refused = shared.rebase_all(rt, 1);
    let first = verdict(rt, &shared);
    shared.rebase_all(rt, 1).ok()?;
    Some((refused, [first, verdict(rt, &shared)]))
}

#[test]
fn logs_that_began_anew_in_part_do_not_fit(rt: HostRuntime) {
    let Some(two) = device(2) else {
        panic!(rt; "no device");
    };
    let refused = Err(LogError::Refused(Refusal::StoreFault));
    let misfit = Ok(RunVerdict::Misfit(Object::Device(two), 0));
    assert_eq!(rt;
        begun_in_part(&rt, rt.alloc()),
        Some((refused, [misfit, Ok(RunVerdict::Fits(0))]))
    );
}
