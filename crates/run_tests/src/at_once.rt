//! Six threads at once: whatever is done stands in the logs, and every cut fits.
use crate::effects::exchanged;
use crate::made::{device, docs, file};
use crate::seen::{held, next_cut};
use bep_blocks::OpenGate;
use bep_log::LogError;
use bep_record::{FolderName, Name};
use bep_run::Shared;
use bep_run_cut::RunCut;
use bep_store::MemStore;
use std::alloc::Global;
use std::sync::Wait;
use std::thread;
use std::thread::Threads;

// How many rounds each thread makes.
const ROUNDS: u8 = 50;

// The letters with which the names begin that the two threads edit.
const LETTERS: [u8; 2] = [b'a', b'b'];

// What a thread saw: how many actions answered Ok, and how many were refused for an old ticket.
#[derive(Clone, Copy, Debug, PartialEq, Eq)]
struct Count {
    done: u64,
    old: u64,
}

impl Count {
    fn none() -> Self {
        Count { done: 0, old: 0 }
    }

    // So many more are done.
    fn add(&mut self, done: u64) {
        self.done = self.done.saturating_add(done);
    }

    // One more, by its answer.
    fn tell<T: Drop>(&mut self, answer: Result<T, LogError>) {
        match answer {
            Ok(_) => self.add(1),
            Err(LogError::TicketOld) => self.old = self.old.saturating_add(1),
            Err(_) => {}
        }
    }
}

// The name of this letter and this round.
fn name_of(alloc: Global, letter: u8, round: u8) -> Option<Name> {
    Name::read(alloc, &[letter, b'@'.saturating_add(round)]).ok()
}

// Puts a file of as many bytes as the round's number under each of the names.
fn edits<R: Wait>(rt: &R, alloc: Global, shared: &Shared<MemStore>, letter: u8) -> Option<Count> {
    let (one, docs) = (device(1)?, docs(alloc)?);
    let mut count = Count::none();
    for round in 0..ROUNDS {
        let name = name_of(alloc, letter, round)?;
        let node = file(alloc, usize::from(round))?;
        count.tell(shared.edit(rt, one, &docs, &name, &node));
    }
    Some(count)
}

// Restarts device 1 and connects it again.
fn restarts<R: Wait>(rt: &R, shared: &Shared<MemStore>) -> Option<Count> {
    let (one, two) = (device(1)?, device(2)?);
    let mut count = Count::none();
    for _ in 0..ROUNDS {
        count.tell(shared.restart(rt, one));
        count.tell(shared.connect(rt, one, two));
    }
    Some(count)
}

// Makes turns of the session of the device of this number.
fn sessions<R: Wait>(rt: &R, shared: &Shared<MemStore>, number: u64, other: u64) -> Option<Count> {
    let mut count = Count::none();
    for _ in 0..ROUNDS {
        let done = shared.session_turn(rt, device(number)?, device(other)?, &OpenGate);
        count.add(done.ok()?);
    }
    Some(count)
}

// Takes cuts, each of which fits.
fn cuts<R: Wait>(rt: &R, shared: &Shared<MemStore>) -> Option<Count> {
    for _ in 0..ROUNDS {
        next_cut(rt, shared)?;
    }
    Some(Count::none())
}

// What the thread of this number does.
fn act<R: Wait>(rt: &R, alloc: Global, shared: &Shared<MemStore>, thread: usize) -> Option<Count> {
    match thread {
        0 => edits(rt, alloc, shared, b'a'),
        1 => edits(rt, alloc, shared, b'b'),
        2 => restarts(rt, shared),
        3 => sessions(rt, shared, 1, 2),
        4 => sessions(rt, shared, 2, 1),
        _ => cuts(rt, shared),
    }
}

// What all six threads saw, added up.
fn all_at_once<R: Threads + Wait + Sync>(
    rt: &R,
    alloc: Global,
    shared: &Shared<MemStore>,
) -> Option<Count> {
    let counts = thread::map_indices(rt, alloc, 6, &|thread| act(rt, alloc, shared, thread)).ok()?;
    let mut all = Count::none();
    for count in counts {
        let count = count?;
        all.add(count.done);
        all.old = all.old.saturating_add(count.old);
    }
    Some(all)
}

// Of how many edits the cut has the file.
fn edited(alloc: Global, run: &RunCut, docs: &FolderName) -> Option<u64> {
    let mut count = 0u64;
    for letter in LETTERS {
        for round in 0..ROUNDS {
            let name = name_of(alloc, letter, round)?;
            if held(run, 1, docs, &name) == (Some(usize::from(round)), None) {
                count = count.saturating_add(1);
            }
        }
    }
    Some(count)
}

// How many tickets were old; how many events the last cut has more, or less, than actions were done; and how many edits it has.
fn counted<R: Threads + Wait + Sync>(rt: &R, alloc: Global) -> Option<(u64, u64, u64)> {
    let shared = exchanged(rt, alloc)?;
    shared.rebase_all(rt, 1).ok()?;
    let all = all_at_once(rt, alloc, &shared)?;
    let (run, count) = next_cut(rt, &shared)?;
    Some((
        all.old,
        count.abs_diff(all.done),
        edited(alloc, &run, &docs(alloc)?)?,
    ))
}

#[test]
fn every_action_leaves_its_event_and_effect(rt: HostRuntime) {
    assert_eq!(rt; counted(&rt, rt.alloc()), Some((0, 0, 100)));
}
