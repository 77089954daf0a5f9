//! Folders, links and rows, made of what a document says of them.
ghost use Rattle.std.specs.Prelude.{◌≡◌, IfOk, [], map};
ghost use Rattle.std.specs.List.{AllByRecursion, filter};
ghost use Rattle.bep_record.specs.Entry.{IsWellFormed};
ghost use Rattle.bep_document.specs.Faultless.{IsFaultlessIndex, IsFaultlessShare, IsFaultlessFolder};
ghost use Rattle.bep_cut_document.specs.Sorting.{in_order};
ghost use Rattle.bep_cut_document.specs.Written.{IsWellFormedLink, has_point, view_written, share_written, folder_written, flight_written, link_written, row_written};

use crate::records::{nodes_by_name, records_as_listed, records_by_name};
use crate::sorting::{Ordered, place};
use bep_document::{FlightParts, FolderParts, LinkParts, RowParts, ShareParts, ViewParts};
use bep_model::{Flight, Row};
use bep_record::{Items, Record};
use bep_tables::{LinkState, PeerView, Share, SharedFolder};
use std::alloc::{AllocError, Global};

/// What stands in lists of a cut or a certificate, made of what a document says of it.
pub(crate) trait FromParts<P>: Drop {
    /// Which parts it can be made of.
    ghost is_sound: { P → Type 0 };

    /// What is made of the parts.
    ghost made_of: { P → Self };

    /// What is made of the parts, or want of memory.
    fn from_parts(alloc: Global, parts: P) -> Result<Self, AllocError>
        requires { is_sound parts }
        ensures { IfOk result (λ made. made ≡ made_of parts) };
}

// What is made of each of these parts, in order.
pub(crate) fn all_in_order<P: Drop, T: FromParts<P> + Ordered>(
    alloc: Global,
    parts: Items<P>,
) -> Result<Items<T>, AllocError>
    requires { AllByRecursion T.is_sound parts }
    ensures { IfOk result (λ made. made ≡ in_order T.order [] (map T.made_of parts)) }
{
    let mut made = Vec::new(alloc);
    for part in parts.into_vec() {
        let one = T::from_parts(alloc, part)?;
        place(&mut made, one)?;
    }
    Ok(Items::new(made))
}

// What is made of each of these parts, as they stand in the document.
pub(crate) fn all_as_listed<P: Drop, T: FromParts<P>>(
    alloc: Global,
    parts: Items<P>,
) -> Result<Items<T>, AllocError>
    requires { AllByRecursion T.is_sound parts }
    ensures { IfOk result (λ made. made ≡ map T.made_of parts) }
{
    let mut made = Vec::with_capacity(alloc, parts.as_slice().len())?;
    for part in parts.into_vec() {
        let one = T::from_parts(alloc, part)?;
        made.push(one)?;
    }
    Ok(Items::new(made))
}

impl FromParts<FolderParts> for SharedFolder {
    ghost is_sound = { IsFaultlessFolder };

    ghost made_of = { folder_written };

    fn from_parts(alloc: Global, folder: FolderParts) -> Result<Self, AllocError> {
        Ok(SharedFolder {
            folder: folder.folder,
            shares: all_in_order(alloc, folder.devices)?,
        })
    }
}

impl FromParts<ShareParts> for Share {
    ghost is_sound = { IsFaultlessShare };

    ghost made_of = { share_written };

    fn from_parts(alloc: Global, share: ShareParts) -> Result<Self, AllocError> {
        Ok(Share {
            device: share.device,
            kind: share.kind,
            index_id: share.index_id,
            max_sequence: share.max,
            own: records_by_name(alloc, share.own)?,
            store: nodes_by_name(alloc, share.store)?,
            views: all_in_order(alloc, known_views(share.views))?,
            pulls: records_by_name(alloc, share.pulls)?,
        })
    }
}

// The views of which something is known.
fn known_views(views: Items<ViewParts>) -> Items<ViewParts>
    ensures { result ≡ filter has_point views }
{
    let mut views = views.into_vec();
    views.retain(|view| view.index_id != 0 || view.max != 0);
    Items::new(views)
}

impl FromParts<ViewParts> for PeerView {
    ghost is_sound = { λ view. IsFaultlessIndex view.max view.records };

    ghost made_of = { view_written };

    fn from_parts(alloc: Global, view: ViewParts) -> Result<Self, AllocError> {
        Ok(PeerView {
            of: view.of,
            index_id: view.index_id,
            max_sequence: view.max,
            records: records_by_name(alloc, view.records)?,
        })
    }
}

impl FromParts<LinkParts> for LinkState {
    ghost is_sound = { IsWellFormedLink };

    ghost made_of = { link_written };

    fn from_parts(alloc: Global, link: LinkParts) -> Result<Self, AllocError> {
        Ok(LinkState {
            a: link.a,
            b: link.b,
            up: link.up,
            epoch: link.epoch,
            to_a: all_as_listed(alloc, link.to_a)?,
            to_b: all_as_listed(alloc, link.to_b)?,
        })
    }
}

impl FromParts<FlightParts> for Flight {
    ghost is_sound = { λ flight. AllByRecursion IsWellFormed flight.records };

    ghost made_of = { flight_written };

    fn from_parts(alloc: Global, flight: FlightParts) -> Result<Self, AllocError> {
        Ok(Flight {
            folder: flight.folder,
            full: flight.full,
            records: records_as_listed(alloc, flight.records)?,
        })
    }
}

impl FromParts<RowParts> for Row {
    ghost is_sound = { λ row. IsWellFormed row.entry };

    ghost made_of = { row_written };

    fn from_parts(alloc: Global, row: RowParts) -> Result<Self, AllocError> {
        Ok(Row {
            folder: row.folder,
            device: row.device,
            entry: Record::of(alloc, row.entry)?,
        })
    }
}
