//! Copies of the devices and links of a running cluster, made at two moments.
use crate::cluster::{Logged, unless_wanting};
use crate::making::make;
use bep_log::{LinkCopy, PeerCopy};
use bep_run_cut::RunCut;
use bep_scenario::{Scenario, read_scenario};
use std::alloc::{AllocError, Global};

/// The run cut of the scenario, of which the first device is copied after `first` steps, and all else after `rest` steps. Each
/// step has its place, from 1, as ticket.
pub(crate) fn torn(
    alloc: Global,
    bytes: &[u8],
    first: u64,
    rest: u64,
) -> Result<RunCut, AllocError> {
    match read_scenario(alloc, bytes) {
        Ok(scenario) => torn_at(alloc, scenario, first, rest),
        Err(_) => Err(AllocError),
    }
}

fn torn_at(alloc: Global, scenario: Scenario, first: u64, rest: u64) -> Result<RunCut, AllocError> {
    let mut cluster = Logged::new(alloc, scenario.config)?;
    let mut peers = Vec::new(alloc);
    let mut others = Vec::new(alloc);
    let mut links = Vec::new(alloc);
    let mut ticket: u64 = 0;
    copy_due(
        &mut cluster,
        (first, rest),
        ticket,
        &mut peers,
        &mut others,
        &mut links,
    )?;
    for step in scenario.steps {
        ticket = ticket.saturating_add(1);
        make(alloc, &mut cluster, ticket, &step)?;
        copy_due(
            &mut cluster,
            (first, rest),
            ticket,
            &mut peers,
            &mut others,
            &mut links,
        )?;
    }
    for copy in others {
        peers.push(copy)?;
    }
    // these are one copy of each device and link of a cluster, so there is a run cut
    match RunCut::of(alloc, peers, links)? {
        Some(run) => Ok(run),
        None => Err(AllocError),
    }
}

// Copies what is to be copied after so many steps.
fn copy_due(
    cluster: &mut Logged,
    moments: (u64, u64),
    done: u64,
    first: &mut Vec<PeerCopy>,
    others: &mut Vec<PeerCopy>,
    links: &mut Vec<LinkCopy>,
) -> Result<(), AllocError> {
    let mut is_first = true;
    for peer in cluster.peers.iter_mut() {
        if is_first && moments.0 == done {
            first.push(unless_wanting(peer.copy())?)?;
        }
        if !is_first && moments.1 == done {
            others.push(unless_wanting(peer.copy())?)?;
        }
        is_first = false;
    }
    if moments.1 == done {
        for link in cluster.links.iter() {
            links.push(link.copy()?)?;
        }
    }
    Ok(())
}
