//! Whether a name is known: whether a device that shares its folder has it, or it is on its way to one.
ghost use Rattle.std.specs.Prelude.{◌↔◌, IsTrue};
ghost use Rattle.bep_model.specs.Foreign.{IsKnown};
ghost use Rattle.bep_tables.specs.Cut.{tables_of};
ghost use Rattle.bep_audit.specs.inner.Known.{HasValid, IsViewedIn, HasForeign, HasName, IsHeldIn, IsValidOf, HasValidOf, Brings, IsBroughtBy, IsOver, IsOnItsWay};

use bep_map::NameMap;
use bep_record::{FolderName, Name, Record};
use bep_tables::{Cut, Flight, LinkState, PeerView, Share, cut_says};

/// Whether the name is known in the folder. Takes no memory.
pub fn is_known(cut: &Cut, folder: &FolderName, name: &Name) -> bool
    ensures { IsTrue result ↔ IsKnown (tables_of cut.now) folder.now name.now }
{
    cut_says();
    is_held(cut.shares(folder), name) || is_on_its_way(cut.links(), folder, name)
}

// Whether one of the devices has the name.
fn is_held(shares: &[Share], name: &Name) -> bool
    ensures { IsTrue result ↔ IsHeldIn shares.now name.now }
{
    shares.iter().any(|share| has_name(share, name))
}

// Whether the device recorded the name, its store holds it, or the device has it from elsewhere.
fn has_name(share: &Share, name: &Name) -> bool
    ensures { IsTrue result ↔ HasName share.now name.now }
{
    share.own.contains(name) || share.store.contains(name) || has_foreign(share, name)
}

// Whether the device pulls the name, or has it in a view.
fn has_foreign(share: &Share, name: &Name) -> bool
    ensures { IsTrue result ↔ HasForeign share.now name.now }
{
    share.pulls.contains(name) || is_viewed(share.views.as_slice(), name)
}

// Whether one of the views has a valid record of the name.
fn is_viewed(views: &[PeerView], name: &Name) -> bool
    ensures { IsTrue result ↔ IsViewedIn views.now name.now }
{
    views.iter().any(|view| has_valid(&view.records, name))
}

fn has_valid(records: &NameMap<Record>, name: &Name) -> bool
    ensures { IsTrue result ↔ HasValid records.now name.now }
{
    match records.get(name) {
        None => false,
        Some(found) => !found.entry().invalid,
    }
}

// Whether a valid record of the name is on its way over one of the links, in a message of the folder.
fn is_on_its_way(links: &[LinkState], folder: &FolderName, name: &Name) -> bool
    ensures { IsTrue result ↔ IsOnItsWay folder.now links.now name.now }
{
    links.iter().any(|link| is_over(link, folder, name))
}

// Whether one is, over this link.
fn is_over(link: &LinkState, folder: &FolderName, name: &Name) -> bool
    ensures { IsTrue result ↔ IsOver folder.now name.now link.now }
{
    is_brought(link.to_a.as_slice(), folder, name) || is_brought(link.to_b.as_slice(), folder, name)
}

// Whether one of the messages brings it.
fn is_brought(flights: &[Flight], folder: &FolderName, name: &Name) -> bool
    ensures { IsTrue result ↔ IsBroughtBy folder.now name.now flights.now }
{
    flights.iter().any(|flight| brings(flight, folder, name))
}

// Whether the message is of the folder, and has a valid record of the name.
fn brings(flight: &Flight, folder: &FolderName, name: &Name) -> bool
    ensures { IsTrue result ↔ Brings folder.now name.now flight.now }
{
    flight.folder == *folder && has_valid_of(flight.records.as_slice(), name)
}

fn has_valid_of(records: &[Record], name: &Name) -> bool
    ensures { IsTrue result ↔ HasValidOf name.now records.now }
{
    records.iter().any(|found| is_valid_of(found, name))
}

fn is_valid_of(found: &Record, name: &Name) -> bool
    ensures { IsTrue result ↔ IsValidOf name.now found.now }
{
    let entry = found.entry();
    entry.name == *name && !entry.invalid
}
