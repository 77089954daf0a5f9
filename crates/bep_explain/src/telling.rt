//! What a person asks next of a name, or of a device there, whatever fails. No contract speaks of which these are.
use crate::detail::{Detail, What, add_record, add_store};
use crate::details::{add_known, add_winner};
use crate::lookup::OfOne;
use crate::sources::{Asked, Which, add_coming, add_pull, add_views};
use bep_audit::Spot;
use bep_tables::{Cut, Share};
use std::alloc::{AllocError, Global};

/// What is told.
#[derive(Clone, Copy, PartialEq, Eq)]
pub enum Telling {
    /// All that each device knows of the name.
    Known,
    /// What the device has of the name.
    Held,
    /// The winner, and what the device has.
    HeldBesideWinner,
    /// What the device has, and each record that counts more of its changes than its own one does.
    CountsMore,
}

/// The details of a place of the cut that are told there.
pub fn details_told<'a>(
    alloc: Global,
    cut: &'a Cut,
    of: &OfOne<'_, 'a>,
    spot: &Spot<'a>,
    telling: Telling,
) -> Result<Vec<Detail<'a>>, AllocError> {
    let mut details = Vec::new(alloc);
    if telling == Telling::HeldBesideWinner {
        add_winner(&mut details, of)?;
    }
    for share in cut.shares(spot.folder) {
        if telling == Telling::Known {
            add_known(&mut details, of, spot.name, share)?;
        } else if spot.device == Some(share.device) {
            add_there(&mut details, cut, of, spot, share, telling)?;
        }
    }
    Ok(details)
}

// What the device has of the name, and what counts more of its changes, if that is told.
fn add_there<'a>(
    details: &mut Vec<Detail<'a>>,
    cut: &'a Cut,
    of: &OfOne<'_, 'a>,
    spot: &Spot<'a>,
    there: &'a Share,
    telling: Telling,
) -> Result<(), AllocError> {
    let own = there.own.get(spot.name);
    add_record(details, What::Own, Some(there.device), None, own)?;
    add_store(details, there.device, there.store.get(spot.name))?;
    if telling == Telling::CountsMore {
        let asked = Asked {
            name: spot.name,
            which: Which::CountsMore(own, there.device),
        };
        for share in cut.shares(spot.folder) {
            add_asked(details, of, &asked, share)?;
        }
    }
    Ok(())
}

// The records that are asked for, of those that the device knows.
fn add_asked<'a>(
    details: &mut Vec<Detail<'a>>,
    of: &OfOne<'_, 'a>,
    asked: &Asked<'a>,
    share: &'a Share,
) -> Result<(), AllocError> {
    if let Some(own) = share.own.get(asked.name) {
        if asked.takes(own) {
            add_record(details, What::Own, Some(share.device), None, Some(own))?;
        }
    }
    add_views(details, asked, share)?;
    add_coming(details, asked, of.coming, share.device)?;
    add_pull(details, asked, share)
}
