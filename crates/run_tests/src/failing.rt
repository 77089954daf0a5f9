//! That a cut is refused where a store of any device fails, and that the next one fits then.
use crate::made::{device, docs, file, hello, three_failing};
use crate::seen::next_cut;
use bep_blocks::OpenGate;
use bep_log::LogError;
use bep_machine::Refusal;
use std::alloc::Global;
use std::sync::Wait;

// These calls of the stores fail. A file is put at each device and a cut taken: why it is refused, and how many events the next
// one has.
fn refused<R: Wait>(rt: &R, alloc: Global, calls: [u64; 3]) -> Option<(Option<LogError>, u64)> {
    let (docs, name) = (docs(alloc)?, hello(alloc)?);
    let shared = three_failing(alloc, calls)?;
    for number in 1..=3u64 {
        let node = file(alloc, 2)?;
        shared.edit(rt, device(number)?, &docs, &name, &node).ok()?;
    }
    let first = shared.take_cut(rt, &OpenGate).err();
    let (_, count) = next_cut(rt, &shared)?;
    Some((first, count))
}

// A store lists its names as the cluster comes behind its locks, and then writes. A cut takes the third call, which lists, and the
// fourth, which reads.
#[test]
fn a_cut_is_refused_where_the_store_of_any_device_fails(rt: HostRuntime) {
    let fault = Some((Some(LogError::Refused(Refusal::StoreFault)), 3));
    assert_eq!(rt; refused(&rt, rt.alloc(), [0, 0, 0]), Some((None, 3)));
    assert_eq!(rt; refused(&rt, rt.alloc(), [3, 0, 0]), fault);
    assert_eq!(rt; refused(&rt, rt.alloc(), [4, 0, 0]), fault);
    assert_eq!(rt; refused(&rt, rt.alloc(), [0, 3, 0]), fault);
    assert_eq!(rt; refused(&rt, rt.alloc(), [0, 4, 0]), fault);
    assert_eq!(rt; refused(&rt, rt.alloc(), [0, 0, 3]), fault);
    assert_eq!(rt; refused(&rt, rt.alloc(), [0, 0, 4]), fault);
}
