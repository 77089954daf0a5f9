//! A device that starts again while its link refuses its half of that.
use crate::made::{Pair, two_devices};
use crate::run::{device, links, two_copies};
use bep_fit::RunVerdict;
use bep_record::DeviceId;
use bep_run_cut::{RunCut, check_run};
use std::alloc::Global;

// A session begins over the link, and its device starts again. The link refuses that: the ticket is old.
fn half_restarted(alloc: Global) -> Option<Pair> {
    let mut pair = two_devices(alloc, [0, 0])?;
    pair.link.connect(1).ok()?;
    pair.first.begin(2, &mut pair.link).ok()?;
    pair.first.restart(3).ok()?;
    match pair.link.restart(2, DeviceId::read(1)?) {
        Ok(()) => None,
        Err(_) => Some(pair),
    }
}

// Both devices and the link begin anew.
fn rebase_all(pair: &mut Pair) -> Option<()> {
    pair.first.rebase(1).ok()?;
    pair.second.rebase(1).ok()?;
    pair.link.rebase(1).ok()
}

fn verdict(alloc: Global, pair: &mut Pair) -> Option<RunVerdict> {
    let peers = two_copies(alloc, pair.first.copy().ok()?, pair.second.copy().ok()?)?;
    let run = RunCut::of(alloc, peers, links(alloc, pair, 1)?).ok()??;
    Some(check_run(&run))
}

#[test]
fn a_refused_half_of_a_restart_is_a_misfit_until_all_begin_anew(rt: HostRuntime) {
    let (Some(mut pair), Some(object)) = (half_restarted(rt.alloc()), device(1)) else {
        panic!(rt; "not restarted by half");
    };
    let misfit = Some(RunVerdict::Misfit(object, 3));
    assert_eq!(rt; verdict(rt.alloc(), &mut pair), misfit);
    // what fits by itself doesn't mend it
    assert!(rt; pair.second.begin(4, &mut pair.link).is_ok());
    assert_eq!(rt; verdict(rt.alloc(), &mut pair), misfit);
    assert_eq!(rt; rebase_all(&mut pair), Some(()));
    assert_eq!(rt; verdict(rt.alloc(), &mut pair), Some(RunVerdict::Fits(0)));
}
