//! What turns count, one after the other in one thread, and what isn't there.
use crate::made::{cluster, device, docs, file, hello};
use bep_blocks::OpenGate;
use bep_index::IndexId;
use bep_log::LogError;
use bep_machine::Refusal;
use bep_record::DeviceId;
use bep_run::Shared;
use bep_store::MemStore;
use std::alloc::Global;
use std::sync::Wait;
use std::thread::Threads;

type Counted = Result<u64, LogError>;

// A file of two blocks is put and scanned at device 1, and the link comes up.
fn with_record<R: Threads + Wait + Sync>(rt: &R, alloc: Global) -> Option<Shared<MemStore>> {
    let (one, two) = (device(1)?, device(2)?);
    let shared = Shared::new(alloc, cluster(alloc)?).ok()?;
    let name = hello(alloc)?;
    shared
        .edit(rt, one, &docs(alloc)?, &name, &file(alloc, 131073)?)
        .ok()?;
    shared.scanner_turn(rt, one, &OpenGate).ok()?;
    shared.connect(rt, one, two).ok()?;
    Some(shared)
}

// A round: the session of each device, the first's first, and the second's puller.
fn round<R: Threads + Wait + Sync>(
    rt: &R,
    shared: &Shared<MemStore>,
    one: DeviceId,
    two: DeviceId,
) -> [Counted; 3] {
    [
        shared.session_turn(rt, one, two, &OpenGate),
        shared.session_turn(rt, two, one, &OpenGate),
        shared.puller_turn(rt, two),
    ]
}

// What five rounds count, and then a scan of what device 2 has.
fn rounds<R: Threads + Wait + Sync>(rt: &R, alloc: Global) -> Option<([[Counted; 3]; 5], Counted)> {
    let (one, two) = (device(1)?, device(2)?);
    let shared = with_record(rt, alloc)?;
    let first = round(rt, &shared, one, two);
    let second = round(rt, &shared, one, two);
    let third = round(rt, &shared, one, two);
    let fourth = round(rt, &shared, one, two);
    let fifth = round(rt, &shared, one, two);
    let scanned = shared.scanner_turn(rt, two, &OpenGate);
    Some(([first, second, third, fourth, fifth], scanned))
}

// 1. Device 1 begins. Device 2 begins, takes the ClusterConfig, and sends its Index, in which nothing is.
// 2. Device 1 takes the ClusterConfig, and sends its Index, which device 2 takes: it begins a pull, and asks for a block.
// 3. Device 1 takes the Index. Device 2 keeps its pull, and asks for the other block.
// 4. Device 1 takes a Request, and answers. Device 2 takes the Response.
// 5. The same again, and device 2 ends its pull.
#[test]
fn a_file_of_two_blocks_is_taken_over_in_five_rounds(rt: HostRuntime) {
    let counts = [
        [Ok(1), Ok(3), Ok(0)],
        [Ok(2), Ok(1), Ok(2)],
        [Ok(1), Ok(0), Ok(1)],
        [Ok(1), Ok(1), Ok(0)],
        [Ok(1), Ok(1), Ok(1)],
    ];
    assert_eq!(rt; rounds(&rt, rt.alloc()), Some((counts, Ok(1))));
}

// What is answered where device 3 isn't there, or the link of two devices in falling order.
fn strangers<R: Threads + Wait + Sync>(rt: &R, alloc: Global) -> Option<[Counted; 4]> {
    let (one, two, three) = (device(1)?, device(2)?, device(3)?);
    let shared = Shared::new(alloc, cluster(alloc)?).ok()?;
    Some([
        shared.scanner_turn(rt, three, &OpenGate),
        shared.puller_turn(rt, three),
        shared.session_turn(rt, one, three, &OpenGate),
        shared.connect(rt, two, one).map(|()| 0),
    ])
}

#[test]
fn what_is_not_there_is_not_shared(rt: HostRuntime) {
    let refused = Err(LogError::Refused(Refusal::NotShared));
    assert_eq!(rt;
        strangers(&rt, rt.alloc()),
        Some([refused, refused, refused, refused])
    );
}

// A device that started again has no session, and its link is down until it comes up again.
fn restarted<R: Threads + Wait + Sync>(rt: &R, alloc: Global) -> Option<[Counted; 4]> {
    let (one, two) = (device(1)?, device(2)?);
    let shared = with_record(rt, alloc)?;
    let before = shared.session_turn(rt, one, two, &OpenGate);
    shared.restart(rt, one).ok()?;
    let down = shared.session_turn(rt, one, two, &OpenGate);
    let lost = shared.lose(rt, one, two).map(|()| 0);
    shared.connect(rt, one, two).ok()?;
    Some([
        before,
        down,
        lost,
        shared.session_turn(rt, one, two, &OpenGate),
    ])
}

// A device that is to start over under its present id goes on as it was: its link stays up, with what it sent on its way. Under
// a greater one it has no session, no record and no link that is up.
fn reset<R: Threads + Wait + Sync>(rt: &R, alloc: Global) -> Option<[Counted; 6]> {
    let (one, two) = (device(1)?, device(2)?);
    let shared = with_record(rt, alloc)?;
    shared.session_turn(rt, one, two, &OpenGate).ok()?;
    let old = shared.reset(rt, one, IndexId::read(11)?).map(|()| 0);
    let taken = shared.session_turn(rt, two, one, &OpenGate);
    let strange = shared.reset(rt, device(3)?, IndexId::read(21)?).map(|()| 0);
    shared.reset(rt, one, IndexId::read(21)?).ok()?;
    Some([
        old,
        taken,
        strange,
        shared.session_turn(rt, one, two, &OpenGate),
        shared.lose(rt, one, two).map(|()| 0),
        shared.scanner_turn(rt, one, &OpenGate),
    ])
}

#[test]
fn a_reset_ends_sessions_and_links_and_takes_records_away(rt: HostRuntime) {
    let [old, absent, down] = [Refusal::IndexIdOld, Refusal::NotShared, Refusal::LinkDown];
    assert_eq!(rt;
        reset(&rt, rt.alloc()),
        Some([
            Err(LogError::Refused(old)),
            Ok(3),
            Err(LogError::Refused(absent)),
            Ok(0),
            Err(LogError::Refused(down)),
            Ok(1),
        ])
    );
}

#[test]
fn a_restart_ends_sessions_and_links(rt: HostRuntime) {
    let down = Err(LogError::Refused(Refusal::LinkDown));
    assert_eq!(rt;
        restarted(&rt, rt.alloc()),
        Some([Ok(1), Ok(0), down, Ok(1)])
    );
}
