//! Whether a device's foreign records can't change a row's name: those of its views, those on their way to it, and its
//! pulls.
ghost use Rattle.std.specs.Prelude.{◌↔◌, IsTrue};
ghost use Rattle.std.specs.Option.{option_copied};
ghost use Rattle.bep_audit.specs.inner.Foreign.{AsksForeign, Passes, PassesIfThere, ViewsPass, LinksPass, LinkPasses, EndPasses, FlightsPass, FlightPasses, RecordsPass, PassesIfNamed};

use crate::is_harmless;
use bep_model::{Reason, Row};
use bep_record::{DeviceId, Record};
use bep_tables::{Flight, LinkState, PeerView, Share};

/// Whether the device meets what the reason asks of it beside the row, by its foreign records alone.
///
/// Reasons that ask nothing of foreign records are met.
pub(crate) fn meets_foreign(reason: Reason, row: &Row, links: &[LinkState], share: &Share) -> bool
    ensures { IsTrue result ↔ AsksForeign reason row.now links.now share.now }
{
    let name = &row.entry.entry().name;
    match reason {
        Reason::ViewAhead => views_pass(row, share.own.get(name), share.views.as_slice()),
        Reason::FlightAhead => links_pass(row, share.own.get(name), share.device, links),
        Reason::PullAhead => passes_if_there(row, share.own.get(name), share.pulls.get(name)),
        _ => true,
    }
}

fn views_pass(row: &Row, own: Option<&Record>, views: &[PeerView]) -> bool
    ensures { IsTrue result ↔ ViewsPass row.now (option_copied own.entry) views.now }
{
    let name = &row.entry.entry().name;
    views
        .iter()
        .all(|view| passes_if_there(row, own, view.records.get(name)))
}

// Whether what is on its way to the device passes.
fn links_pass(row: &Row, own: Option<&Record>, device: DeviceId, links: &[LinkState]) -> bool
    ensures { IsTrue result ↔ LinksPass row.now (option_copied own.entry) device links.now }
{
    links.iter().all(|link| link_passes(row, own, device, link))
}

#[tactic(auto, unfolding(crate::specs::inner::Foreign::LinkPasses))]
fn link_passes(row: &Row, own: Option<&Record>, device: DeviceId, link: &LinkState) -> bool
    ensures { IsTrue result ↔ LinkPasses row.now (option_copied own.entry) device link.now }
{
    end_passes(row, own, device, link.a, link.to_a.as_slice())
        && end_passes(row, own, device, link.b, link.to_b.as_slice())
}

// Whether this end of a link is another device, or what is on its way to it passes.
fn end_passes(
    row: &Row,
    own: Option<&Record>,
    device: DeviceId,
    end: DeviceId,
    flights: &[Flight],
) -> bool
    ensures { IsTrue result ↔ EndPasses row.now (option_copied own.entry) device end flights.now }
{
    end != device || flights_pass(row, own, flights)
}

fn flights_pass(row: &Row, own: Option<&Record>, flights: &[Flight]) -> bool
    ensures { IsTrue result ↔ FlightsPass row.now (option_copied own.entry) flights.now }
{
    flights.iter().all(|flight| flight_passes(row, own, flight))
}

// Whether the message is of another folder, or all of its records pass.
fn flight_passes(row: &Row, own: Option<&Record>, flight: &Flight) -> bool
    ensures { IsTrue result ↔ FlightPasses row.now (option_copied own.entry) flight.now }
{
    flight.folder != row.folder || records_pass(row, own, flight.records.as_slice())
}

fn records_pass(row: &Row, own: Option<&Record>, records: &[Record]) -> bool
    ensures { IsTrue result ↔ RecordsPass row.now (option_copied own.entry) records.now }
{
    records
        .iter()
        .all(|foreign| passes_if_named(row, own, foreign))
}

// Whether the record is of another name, or passes.
fn passes_if_named(row: &Row, own: Option<&Record>, foreign: &Record) -> bool
    ensures { IsTrue result ↔ PassesIfNamed row.now (option_copied own.entry) foreign.now }
{
    foreign.entry().name != row.entry.entry().name || passes(row, own, foreign)
}

fn passes_if_there(row: &Row, own: Option<&Record>, foreign: Option<&Record>) -> bool
    ensures { IsTrue result ↔ PassesIfThere row.now (option_copied own.entry) (option_copied foreign.entry) }
{
    match foreign {
        None => true,
        Some(foreign) => passes(row, own, foreign),
    }
}

// Whether the record is invalid, or harmless beside the own record.
fn passes(row: &Row, own: Option<&Record>, foreign: &Record) -> bool
    ensures { IsTrue result ↔ Passes row.now (option_copied own.entry) foreign.now }
{
    foreign.entry().invalid || is_harmless(own, &row.entry, foreign)
}
