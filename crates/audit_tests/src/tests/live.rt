//! What is answered of a scenario whose cluster goes on in threads, by the call that tells nothing on standard error.
use bep_answer::Outcome;
use bep_fit::{Object, RunVerdict};
use bep_live::{live_text, push_run};
use bep_record::DeviceId;
use std::alloc::Global;
use std::str;
use std::sync::Wait;
use std::thread::Threads;

// The fifteen steps by which device 2 takes a file over from device 1.
const SCENARIO: &str = r#"{"version":1,"folders":[{"folder":"docs","devices":[
{"device":1,"kind":"send-receive","index_id":11},
{"device":2,"kind":"send-receive","index_id":12}]}],
"links":[[1,2]],"steps":[
["edit",1,"docs",{"name":"hello","type":0,"modified_s":1000,"text":"hello"}],["scan",1,"docs","hello"],
["connect",1,2],["begin",1,2],["begin",2,1],["deliver",2,1],["deliver",1,2],["announce",1,2,"docs"],
["deliver",2,1],["pull",2,"docs","hello"],["ask",2,1,"docs","hello"],["deliver",1,2],["deliver",2,1],
["finish",2,"docs","hello"],["finish",2,"docs","hello"]]}"#;

// How many events the last line tells of, if it is that of a run that fits.
fn events(text: &[u8]) -> Option<u64> {
    let last = str::from_utf8(text).ok()?.lines().last()?;
    last.strip_prefix("run fits: ")?.parse().ok()
}

// The outcome where threads make so many turns, and how many events there are.
fn lived<R: AllocGlobal + Threads + Wait + Sync>(
    rt: &R,
    turns: u32,
) -> Option<(Outcome, Option<u64>)> {
    let mut text = Vec::new(rt.alloc());
    let mut reader = SCENARIO.as_bytes();
    let outcome = live_text(rt, &mut reader, &mut text, turns).ok()?;
    Some((outcome, events(text.as_slice())))
}

// Each of the two devices scans the file in each turn.
#[test]
fn three_turns_leave_six_events_at_least(rt: HostRuntime) {
    let Some((outcome, Some(count))) = lived(&rt, 3) else {
        panic!(rt; "there is no run that fits");
    };
    assert_eq!(rt; outcome, Outcome::Settled);
    assert!(rt; count >= 6, "{count} events");
}

#[test]
fn without_turns_there_is_no_run(rt: HostRuntime) {
    assert_eq!(rt; lived(&rt, 0), Some((Outcome::Settled, None)));
}

// The lines of a run of six events, and of logs in which ticket 7 is the least at fault.
const LINES: &str = "run fits: 6\nrun misfit: 7\n";

fn lines(alloc: Global) -> Option<Vec<u8>> {
    let mut text = Vec::new(alloc);
    push_run(&mut text, RunVerdict::Fits(6)).ok()?;
    let device = Object::Device(DeviceId::read(1)?);
    push_run(&mut text, RunVerdict::Misfit(device, 7)).ok()?;
    Some(text)
}

#[test]
fn a_verdict_is_a_line(rt: HostRuntime) {
    let Some(text) = lines(rt.alloc()) else {
        panic!(rt; "no memory");
    };
    assert!(rt; text.as_slice() == LINES.as_bytes());
}
