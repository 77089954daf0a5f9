//! What a person asks next of a failure. No contract speaks of which these are.
use crate::detail::{Detail, What, add_record, add_store};
use crate::lookup::OfOne;
use crate::sources::{Asked, Which, add_coming, add_pull, add_views};
use bep_audit::{Failure, Looseness};
use bep_model::{FirmReason, Reason};
use bep_record::Name;
use bep_tables::{Cut, Share};
use std::alloc::{AllocError, Global};

/// The details of a failure at this name: the winner, and the row where it isn't that; on a device its record, and what it
/// stores or what is ahead of that record; of a name without a row, all that knows it.
pub(crate) fn details_of<'a>(
    alloc: Global,
    cut: &'a Cut,
    of: &OfOne<'_, 'a>,
    one: &Failure<'a>,
) -> Result<Vec<Detail<'a>>, AllocError> {
    let mut details = Vec::new(alloc);
    add_winner(&mut details, of)?;
    if let (Reason::NotWinner, Some(row)) = (one.reason, of.row) {
        let entry = Some(&row.entry);
        add_record(&mut details, What::Row, Some(row.device), None, entry)?;
    }
    for share in cut.shares(one.spot.folder) {
        if one.spot.device == Some(share.device) {
            add_share(&mut details, of, one, share)?;
        } else if of.row.is_none() {
            add_known(&mut details, of, one.spot.name, share)?;
        }
    }
    Ok(details)
}

/// The details of what keeps a cut from being firm at a device: the winner, the device's record, and the records that it
/// knows of whose version isn't at most the row's.
pub(crate) fn details_of_loose<'a>(
    alloc: Global,
    cut: &'a Cut,
    of: &OfOne<'_, 'a>,
    one: &Looseness<'a>,
) -> Result<Vec<Detail<'a>>, AllocError> {
    let mut details = Vec::new(alloc);
    add_winner(&mut details, of)?;
    for share in cut.shares(one.folder) {
        if one.device == share.device {
            add_not_below(&mut details, of, one, share)?;
        }
    }
    Ok(details)
}

// What a device has whose version isn't the row's, or not at most that.
fn add_not_below<'a>(
    details: &mut Vec<Detail<'a>>,
    of: &OfOne<'_, 'a>,
    one: &Looseness<'a>,
    share: &'a Share,
) -> Result<(), AllocError> {
    let which = match of.row {
        None => Which::All,
        Some(row) => Which::NotBelow(row),
    };
    let asked = Asked {
        name: one.name,
        which,
    };
    let own = share.own.get(one.name);
    add_record(details, What::Own, Some(share.device), None, own)?;
    match one.reason {
        FirmReason::VersionDiffers => Ok(()),
        FirmReason::ViewNotBelow => add_views(details, &asked, share),
        FirmReason::FlightNotBelow => add_coming(details, &asked, of.coming, share.device),
        FirmReason::PullNotBelow => add_pull(details, &asked, share),
    }
}

pub(crate) fn add_winner<'a>(
    details: &mut Vec<Detail<'a>>,
    of: &OfOne<'_, 'a>,
) -> Result<(), AllocError> {
    match of.winner {
        None => add_record(details, What::Winner, None, None, None),
        Some((device, record)) => {
            add_record(details, What::Winner, Some(device), None, Some(record))
        }
    }
}

// What a device has at which a reason fails.
fn add_share<'a>(
    details: &mut Vec<Detail<'a>>,
    of: &OfOne<'_, 'a>,
    one: &Failure<'a>,
    share: &'a Share,
) -> Result<(), AllocError> {
    let own = share.own.get(one.spot.name);
    let which = match of.row {
        None => Which::All,
        Some(row) => Which::Ahead(own, row),
    };
    let asked = Asked {
        name: one.spot.name,
        which,
    };
    add_record(details, What::Own, Some(share.device), None, own)?;
    match one.reason {
        Reason::ViewAhead => add_views(details, &asked, share),
        Reason::FlightAhead => add_coming(details, &asked, of.coming, share.device),
        Reason::PullAhead => add_pull(details, &asked, share),
        _ => add_store(details, share.device, share.store.get(one.spot.name)),
    }
}

// All that a device knows of a name.
pub(crate) fn add_known<'a>(
    details: &mut Vec<Detail<'a>>,
    of: &OfOne<'_, 'a>,
    name: &'a Name,
    share: &'a Share,
) -> Result<(), AllocError> {
    let asked = Asked {
        name,
        which: Which::All,
    };
    add_held(details, share, name)?;
    add_views(details, &asked, share)?;
    add_coming(details, &asked, of.coming, share.device)?;
    add_pull(details, &asked, share)
}

// The device's own record and what it stores, as far as there is any.
fn add_held<'a>(
    details: &mut Vec<Detail<'a>>,
    share: &'a Share,
    name: &Name,
) -> Result<(), AllocError> {
    let (own, node) = (share.own.get(name), share.store.get(name));
    if own.is_some() {
        add_record(details, What::Own, Some(share.device), None, own)?;
    }
    if node.is_some() {
        add_store(details, share.device, node)?;
    }
    Ok(())
}
