//! That each ticket is drawn under all guards: no action's ticket is old, however many wait for the same device.
use crate::made::{RING, device, docs, file, hello, three};
use crate::waiting::{come, count, rest};
use bep_blocks::{Gate, OpenGate, Place};
use bep_index::IndexId;
use bep_log::LogError;
use bep_record::Name;
use bep_run::Shared;
use bep_store::MemStore;
use std::alloc::Global;
use std::sync::Wait;
use std::sync::atomic::AtomicU64;
use std::thread;
use std::thread::Threads;
use std::time::Clock;

// How many cuts are taken, for how many looks each holds device 1's guard, and how many rounds the others make at most.
const CUTS: u64 = 120;

const LOOKS: u32 = 4;

const ROUNDS: u64 = 10000;

// A gate that holds a cut with the guard of device 1, so that all others wait for it.
#[derive(Drop)]
struct Crowding<R: Clock + Drop> {
    rt: R,
}

impl<R: Clock + Drop> Gate for Crowding<R> {
    fn pass(&self, place: Place) {
        if place == Place::Guarded(1) {
            for _ in 0..LOOKS {
                rest(&self.rt);
            }
        }
    }
}

// What all threads see: the cluster, and whether the cuts are taken.
#[derive(Drop)]
struct Crowd<'a> {
    alloc: Global,
    shared: &'a Shared<MemStore>,
    ended: &'a AtomicU64,
}

// One where the answer is that a ticket is old.
fn is_old<T: Drop>(answer: Result<T, LogError>) -> u64 {
    u64::from(matches!(answer, Err(LogError::TicketOld)))
}

impl Crowd<'_> {
    // What a user does at device 1, in this round.
    fn use_it<R: Wait>(&self, rt: &R, round: u64) -> Option<u64> {
        let (one, docs, name) = (device(1)?, docs(self.alloc)?, hello(self.alloc)?);
        let answer = match round % 4 {
            0 => {
                let node = file(self.alloc, 3)?;
                self.shared.edit(rt, one, &docs, &name, &node)
            }
            1 => self.shared.override_one(rt, one, &docs, &name),
            2 => self.shared.revert_one(rt, one, &docs, &name),
            _ => self.shared.remove(rt, one, &docs, &name),
        };
        Some(is_old(answer))
    }

    // What happens to device 1's link with device 2, in this round.
    fn switch<R: Wait>(&self, rt: &R, round: u64) -> Option<u64> {
        let (one, two) = (device(1)?, device(2)?);
        Some(match round % 2 {
            0 => is_old(self.shared.connect(rt, one, two)),
            _ => is_old(self.shared.lose(rt, one, two)),
        })
    }

    // Device 1 starts again, or over with an id that is always greater, and then without what it knows of others.
    fn restart<R: Wait>(&self, rt: &R, round: u64, resets: bool) -> Option<u64> {
        let one = device(1)?;
        if resets {
            let id = IndexId::read(round.saturating_add(100))?;
            return Some(is_old(self.shared.reset(rt, one, id)));
        }
        Some(is_old(self.shared.restart(rt, one)))
    }

    // Holds device 1's guard again and again. Logs begin anew each time, so that none is full.
    fn crowd<R: Wait + Clock + Copy + Drop>(&self, rt: R) -> Option<u64> {
        let gate = Crowding { rt };
        for round in 1..=CUTS {
            self.shared.take_cut(&rt, &gate).ok()?;
            self.shared.rebase_all(&rt, round).ok()?;
        }
        Some(0)
    }

    // One round of the thread of this number: how many tickets were old.
    fn act<R: Threads + Wait + Sync>(
        &self,
        rt: &R,
        thread: usize,
        round: u64,
        resets: bool,
    ) -> Option<u64> {
        let (one, two) = (device(1)?, device(2)?);
        match thread {
            1 => self.use_it(rt, round),
            2 => self.switch(rt, round),
            3 => self.restart(rt, round, resets),
            4 => Some(is_old(self.shared.scanner_turn(rt, one, &OpenGate))),
            5 => Some(is_old(self.shared.puller_turn(rt, one))),
            _ => Some(is_old(self.shared.session_turn(rt, one, two, &OpenGate))),
        }
    }

    // All rounds of the thread of this number, until the cuts are taken: how many tickets were old.
    fn live<R: Threads + Wait + Clock + Sync + Copy + Drop>(
        &self,
        rt: R,
        thread: usize,
        resets: bool,
    ) -> Option<u64> {
        if thread == 0 {
            let none = self.crowd(rt);
            come(self.ended);
            return none;
        }
        let mut old = 0u64;
        for round in 0..ROUNDS {
            if count(self.ended) == 0 {
                let more = self.act(&rt, thread, round, resets)?;
                old = old.saturating_add(more);
            }
        }
        Some(old)
    }
}

// Device 1 knows of a file of device 2, which it never gets.
fn wanting<R: Threads + Wait + Sync>(rt: &R, alloc: Global) -> Option<Shared<MemStore>> {
    let (one, two) = (device(1)?, device(2)?);
    let shared = three(alloc, &RING)?;
    let other = Name::read(alloc, b"other").ok()?;
    shared
        .edit(rt, two, &docs(alloc)?, &other, &file(alloc, 3)?)
        .ok()?;
    shared.scanner_turn(rt, two, &OpenGate).ok()?;
    shared.connect(rt, one, two).ok()?;
    for _ in 0..4 {
        shared.session_turn(rt, one, two, &OpenGate).ok()?;
        shared.session_turn(rt, two, one, &OpenGate).ok()?;
    }
    Some(shared)
}

// How many were old of the thread of this number.
fn of(lives: &[Option<u64>], thread: usize) -> Option<u64> {
    match lives.get(thread) {
        Some(life) => *life,
        None => None,
    }
}

// How many tickets were old of each thread: those of cuts, a user, the link, restarts, a scanner, a puller and a session.
fn old<R: Threads + Wait + Clock + Sync + Copy + Drop>(
    rt: R,
    alloc: Global,
    resets: bool,
) -> Option<[u64; 7]> {
    let shared = wanting(&rt, alloc)?;
    let ended = AtomicU64::new(0);
    let crowd = Crowd {
        alloc,
        shared: &shared,
        ended: &ended,
    };
    let lives = thread::map_indices(&rt, alloc, 7, &|thread| crowd.live(rt, thread, resets)).ok()?;
    let lives = lives.as_slice();
    Some([
        of(lives, 0)?,
        of(lives, 1)?,
        of(lives, 2)?,
        of(lives, 3)?,
        of(lives, 4)?,
        of(lives, 5)?,
        of(lives, 6)?,
    ])
}

#[test]
fn no_ticket_is_old(rt: HostRuntime) {
    assert_eq!(rt; old(rt, rt.alloc(), false), Some([0; 7]));
}

#[test]
fn no_ticket_is_old_where_a_device_is_reset(rt: HostRuntime) {
    assert_eq!(rt; old(rt, rt.alloc(), true), Some([0; 7]));
}
