//! Run cuts, and the run check of copies that were made at different moments.
use crate::made::{Pair, docs, name, sharing, two_devices};
use crate::scenario::{FIRST, STEPS, made};
use bep_fit::{Object, RunVerdict};
use bep_log::{LinkCopy, PeerCopy};
use bep_record::{DeviceId, Node};
use bep_run_cut::{RunCut, check_run};
use bep_tables::Cut;
use std::alloc::Global;

// When the copies of the two devices and of the link are made: after so many steps.
type Moments = [u64; 3];

// The copies so far.
#[derive(Drop)]
struct Copies {
    first: Option<PeerCopy>,
    second: Option<PeerCopy>,
    link: Option<LinkCopy>,
}

impl Copies {
    // Copies what is to be copied after so many steps.
    fn add(&mut self, pair: &mut Pair, moments: Moments, done: u64) -> Option<()> {
        let [first, second, link] = moments;
        if first == done {
            self.first = Some(pair.first.copy().ok()?);
        }
        if second == done {
            self.second = Some(pair.second.copy().ok()?);
        }
        if link == done {
            self.link = Some(pair.link.copy().ok()?);
        }
        Some(())
    }

    fn run_cut(self, alloc: Global) -> Option<RunCut> {
        let Copies {
            first,
            second,
            link,
        } = self;
        let mut peers = Vec::new(alloc);
        peers.push(first?).ok()?;
        peers.push(second?).ok()?;
        let mut links = Vec::new(alloc);
        links.push(link?).ok()?;
        RunCut::of(alloc, peers, links).ok()?
    }
}

// The run cut of these steps, of which each is under its place as ticket, copied at these moments.
fn run_cut(alloc: Global, pair: &mut Pair, steps: &[&str], moments: Moments) -> Option<RunCut> {
    let mut copies = Copies {
        first: None,
        second: None,
        link: None,
    };
    copies.add(pair, moments, 0)?;
    let mut ticket = 0u64;
    for step in steps {
        ticket = ticket.saturating_add(1);
        let _answer = made(alloc, pair, ticket, step)?;
        copies.add(pair, moments, ticket)?;
    }
    copies.run_cut(alloc)
}

fn verdict(alloc: Global, steps: &[&str], moments: Moments) -> Option<RunVerdict> {
    let mut pair = two_devices(alloc, [0, 0])?;
    Some(check_run(&run_cut(alloc, &mut pair, steps, moments)?))
}

/// The device of this number, as an object of the run.
pub(crate) fn device(number: u64) -> Option<Object> {
    Some(Object::Device(DeviceId::read(number)?))
}

fn link() -> Option<Object> {
    Some(Object::Link(DeviceId::read(1)?, DeviceId::read(2)?))
}

// The link comes up, and the first device begins a session: both are in the link's log, the second in the device's too.
const TWO: [&str; 2] = ["c", "b1"];

#[test]
fn two_events_fit_where_all_have_both(rt: HostRuntime) {
    assert_eq!(rt;
        verdict(rt.alloc(), &TWO, [2, 2, 2]),
        Some(RunVerdict::Fits(2))
    );
}

#[test]
fn what_the_device_lacks_is_the_links_misfit(rt: HostRuntime) {
    let Some(object) = link() else {
        panic!(rt; "no link");
    };
    assert_eq!(rt;
        verdict(rt.alloc(), &TWO, [1, 2, 2]),
        Some(RunVerdict::Misfit(object, 2))
    );
}

#[test]
fn what_the_link_lacks_is_the_devices_misfit(rt: HostRuntime) {
    let Some(object) = device(1) else {
        panic!(rt; "no device");
    };
    assert_eq!(rt;
        verdict(rt.alloc(), &TWO, [2, 2, 1]),
        Some(RunVerdict::Misfit(object, 2))
    );
}

// The second device alone has a new base, of round 1.
fn rebased(alloc: Global) -> Option<RunVerdict> {
    let mut pair = two_devices(alloc, [0, 0])?;
    pair.second.rebase(1).ok()?;
    Some(check_run(&run_cut(alloc, &mut pair, &TWO, [2, 2, 2])?))
}

#[test]
fn another_round_is_a_misfit_at_ticket_0(rt: HostRuntime) {
    let Some(object) = device(2) else {
        panic!(rt; "no device");
    };
    assert_eq!(rt; rebased(rt.alloc()), Some(RunVerdict::Misfit(object, 0)));
}

// Of the fifteen steps: the tickets of those that go over the link at the first device, and of all others that are done and
// don't touch it.
const OVER: [u64; 4] = [4, 7, 8, 12];

const OTHERS: [u64; 8] = [3, 5, 6, 9, 10, 11, 13, 14];

fn up_to(tickets: &[u64], last: u64) -> u64 {
    let mut count = 0u64;
    for ticket in tickets {
        if *ticket <= last {
            count = count.saturating_add(1);
        }
    }
    count
}

// The least of these above the one and up to the other.
fn least_within(tickets: &[u64], low: u64, high: u64) -> Option<u64> {
    for ticket in tickets {
        if low < *ticket && *ticket <= high {
            return Some(*ticket);
        }
    }
    None
}

// What is to be answered where the first device is copied after so many steps, and all else after so many: an event over the
// link that one of the two lacks is at fault in the other's log.
fn due(first: u64, rest: u64) -> [u64; 4] {
    if let Some(ticket) = least_within(&OVER, first, rest) {
        return [1, 1, 2, ticket];
    }
    if let Some(ticket) = least_within(&OVER, rest, first) {
        return [1, 1, 0, ticket];
    }
    let count = up_to(&FIRST, first).saturating_add(up_to(&OTHERS, rest));
    [0, 0, 0, count]
}

// The two devices once those of the steps are made that touch the first one and stand no later than `first`, and those of the
// others that stand no later than `rest`. Where such copies fit, this is their merged list.
fn after(alloc: Global, first: u64, rest: u64) -> Option<Pair> {
    let mut pair = two_devices(alloc, [0, 0])?;
    let mut ticket = 0u64;
    for step in STEPS {
        ticket = ticket.saturating_add(1);
        let moment = if FIRST.contains(&ticket) { first } else { rest };
        if ticket <= moment {
            let _answer = made(alloc, &mut pair, ticket, step)?;
        }
    }
    Some(pair)
}

// The bytes of a file; none where there is none.
fn bytes_of<'a>(node: Option<&'a Node>) -> &'a [u8] {
    match node {
        Some(node) => node.parts().bytes.as_slice(),
        None => &[],
    }
}

// Whether both devices hold in the cut what the merged list leaves them.
fn is_left(alloc: Global, run: &RunCut, first: u64, rest: u64) -> Option<bool> {
    let (docs, name) = (docs(alloc)?, name(alloc, b'h')?);
    let mut pair = after(alloc, first, rest)?;
    let one = pair.first.look(&docs, &name).ok()?;
    let other = pair.second.look(&docs, &name).ok()?;
    match run.cut().shares(&docs) {
        [share, next] => Some(
            bytes_of(share.store.get(&name)) == bytes_of(one.as_ref())
                && bytes_of(next.store.get(&name)) == bytes_of(other.as_ref()),
        ),
        _ => None,
    }
}

// Of all pairs of moments: how many have the verdict that is due, how many of these fit, and of how many of those the stores
// are what the merged list leaves.
fn torn(alloc: Global) -> Option<(u64, u64, u64)> {
    let (mut right, mut fitting, mut left) = (0u64, 0u64, 0u64);
    for first in 0..16u64 {
        for rest in 0..16u64 {
            let (one_right, one_fitting, one_left) = torn_at(alloc, first, rest)?;
            right = right.saturating_add(one_right);
            fitting = fitting.saturating_add(one_fitting);
            left = left.saturating_add(one_left);
        }
    }
    Some((right, fitting, left))
}

// Of copies of these two moments: 1 if the verdict is right, 1 if they fit, and 1 if they fit and the stores are what is left.
fn torn_at(alloc: Global, first: u64, rest: u64) -> Option<(u64, u64, u64)> {
    let mut pair = two_devices(alloc, [0, 0])?;
    let run = run_cut(alloc, &mut pair, &STEPS, [first, rest, rest])?;
    let right = u64::from(found(&run) == due(first, rest));
    if fits(&run) {
        Some((right, 1, u64::from(is_left(alloc, &run, first, rest)?)))
    } else {
        Some((right, 0, 0))
    }
}

// The verdict as numbers: whether it is a misfit, the device or the ends of the link at fault, and the ticket or the count.
fn found(run: &RunCut) -> [u64; 4] {
    match check_run(run) {
        RunVerdict::Fits(count) => [0, 0, 0, count],
        RunVerdict::Misfit(object, ticket) => {
            let [device, other] = devices_of(object);
            [1, device, other, ticket]
        }
    }
}

fn devices_of(object: Object) -> [u64; 2] {
    match object {
        Object::Device(device) => [device.number(), 0],
        Object::Link(lower, upper) => [lower.number(), upper.number()],
    }
}

fn fits(run: &RunCut) -> bool {
    matches!(check_run(run), RunVerdict::Fits(_))
}

// 58 fit: 4, 3, 1, 4 and 4 moments have no event over the link at the first device between them.
#[test]
fn torn_copies_have_the_verdict_that_is_due(rt: HostRuntime) {
    assert_eq!(rt; torn(rt.alloc()), Some((256, 58, 58)));
}

// Whether these copies make no run cut.
fn is_refused(alloc: Global, peers: Vec<PeerCopy>, links: Vec<LinkCopy>) -> Option<bool> {
    Some(RunCut::of(alloc, peers, links).ok()?.is_none())
}

/// Both copies.
pub(crate) fn two_copies(
    alloc: Global,
    first: PeerCopy,
    second: PeerCopy,
) -> Option<Vec<PeerCopy>> {
    let mut peers = Vec::new(alloc);
    peers.push(first).ok()?;
    peers.push(second).ok()?;
    Some(peers)
}

/// The link, copied so many times.
pub(crate) fn links(alloc: Global, pair: &Pair, times: u64) -> Option<Vec<LinkCopy>> {
    let mut links = Vec::new(alloc);
    for _time in 0..times {
        links.push(pair.link.copy().ok()?).ok()?;
    }
    Some(links)
}

// Both devices, in their order or the other way round, with the link so many times: whether there is no run cut.
fn both_refused(alloc: Global, falling: bool, times: u64) -> Option<bool> {
    let mut pair = two_devices(alloc, [0, 0])?;
    let (first, second) = (pair.first.copy().ok()?, pair.second.copy().ok()?);
    let peers = if falling {
        two_copies(alloc, second, first)?
    } else {
        two_copies(alloc, first, second)?
    };
    is_refused(alloc, peers, links(alloc, &pair, times)?)
}

// The first device twice, or by itself.
fn first_refused(alloc: Global, twice: bool) -> Option<bool> {
    let mut pair = two_devices(alloc, [0, 0])?;
    let mut peers = Vec::new(alloc);
    peers.push(pair.first.copy().ok()?).ok()?;
    if twice {
        peers.push(pair.first.copy().ok()?).ok()?;
    }
    is_refused(alloc, peers, links(alloc, &pair, 1)?)
}

// The first device shares the folder with the second, which shares it with none.
fn differing_refused(alloc: Global) -> Option<bool> {
    let mut pair = two_devices(alloc, [0, 0])?;
    let mut other = sharing(alloc, 2, &[], &[1], 0)?;
    let peers = two_copies(alloc, pair.first.copy().ok()?, other.copy().ok()?)?;
    is_refused(alloc, peers, links(alloc, &pair, 1)?)
}

#[test]
fn copies_that_are_no_cluster_make_no_run_cut(rt: HostRuntime) {
    assert_eq!(rt; both_refused(rt.alloc(), false, 1), Some(false));
    assert_eq!(rt; both_refused(rt.alloc(), false, 0), Some(true), "no link");
    assert_eq!(rt;
        both_refused(rt.alloc(), false, 2),
        Some(true),
        "the link twice"
    );
    assert_eq!(rt;
        both_refused(rt.alloc(), true, 1),
        Some(true),
        "the second device first"
    );
    assert_eq!(rt;
        first_refused(rt.alloc(), true),
        Some(true),
        "a device twice"
    );
    assert_eq!(rt;
        first_refused(rt.alloc(), false),
        Some(true),
        "a device alone"
    );
    assert_eq!(rt;
        differing_refused(rt.alloc()),
        Some(true),
        "they differ on who shares"
    );
}

// After the fifteen steps both devices have the file; when the logs began none had. So many devices hold something in each cut.
fn holding(alloc: Global) -> Option<(usize, usize)> {
    let mut pair = two_devices(alloc, [0, 0])?;
    let run = run_cut(alloc, &mut pair, &STEPS, [15, 15, 15])?;
    Some((held(run.base()), held(run.cut())))
}

fn held(cut: &Cut) -> usize {
    let mut count = 0usize;
    for folder in cut.folders() {
        for share in folder.shares.as_slice() {
            if share.store.iter().next().is_some() {
                count = count.saturating_add(1);
            }
        }
    }
    count
}

#[test]
fn a_run_leads_from_its_base_to_its_cut(rt: HostRuntime) {
    assert_eq!(rt; holding(rt.alloc()), Some((0, 2)));
}

// The object, round and number of events of each log.
fn told(alloc: Global) -> Option<[(Object, u64, usize); 3]> {
    let mut pair = two_devices(alloc, [0, 0])?;
    let run = run_cut(alloc, &mut pair, &STEPS, [15, 15, 15])?;
    match run.logs() {
        [first, second, link] => Some([
            (first.object(), first.round(), first.events().len()),
            (second.object(), second.round(), second.events().len()),
            (link.object(), link.round(), link.events().len()),
        ]),
        _ => None,
    }
}

// the same, by hand
fn due_logs() -> Option<[(Object, u64, usize); 3]> {
    Some([(device(1)?, 0, 6), (device(2)?, 0, 7), (link()?, 0, 10)])
}

#[test]
fn a_run_cut_lends_its_logs(rt: HostRuntime) {
    let due = due_logs();
    assert!(rt; due.is_some());
    assert_eq!(rt; told(rt.alloc()), due);
}
