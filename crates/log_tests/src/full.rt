//! Full logs.
use bep_log::{LoggedLink, MAX_EVENTS};
use log_fixture::{number, two_devices};

// The link comes up and goes down until its log is full; the numbers of the refusals then: of a step that fits, under an old
// ticket and under a new one.
fn filled(link: &mut LoggedLink) -> Option<(usize, Option<u32>, Option<u32>)> {
    let mut ticket = 0u64;
    for _round in 0..MAX_EVENTS / 2 {
        ticket = ticket.saturating_add(1);
        link.connect(ticket).ok()?;
        ticket = ticket.saturating_add(1);
        link.lose(ticket).ok()?;
    }
    let old = number(link.connect(ticket));
    let full = number(link.connect(ticket.saturating_add(1)));
    Some((link.log().len(), old, full))
}

#[test]
fn a_full_log_refuses_after_an_old_ticket(rt: HostRuntime) {
    let Some(mut pair) = two_devices(rt.alloc(), [0, 0]) else {
        panic!(rt; "no pair");
    };
    assert_eq!(rt; filled(&mut pair.link), Some((65536, Some(171), Some(172))));
    // the device's log has room, and the link's has none
    assert_eq!(rt; number(pair.first.begin(100000, &mut pair.link)), Some(172));
}
